// A lent room: zeroed, or filled with the graph of a thread that is present.
#![tactic(auto)]

ghost use Rattle.std.specs.Prelude.{[], ◌∷◌, length};
ghost use Rattle.builder.specs.Result.{Leaves};
ghost use Rattle.room.specs.Room.{made, Cleared};

use builder::build;
use graphs::Built;
use thread::{Refusal, clear};

// the graph of a present thread; the room of another becomes zero
pub fn build_present(
    present: bool,
    model: u32,
    table: &[u32],
    nodes: &mut [u32],
    edges: &mut [u32],
) -> Result<Built, Refusal>
    ensures { Leaves (made present model table.now (length nodes.old) (length edges.old)) result nodes.new edges.new }
{
    if present {
        return build(model, table, nodes, edges);
    }
    clear(nodes);
    clear(edges);
    Ok(Built { nodes: 0, edges: 0 })
}

// "A refusal zeroes every table lent for writing"
pub fn clear_all(
    n0: &mut [u32],
    e0: &mut [u32],
    n1: &mut [u32],
    e1: &mut [u32],
    n2: &mut [u32],
    e2: &mut [u32],
    n3: &mut [u32],
    e3: &mut [u32],
)
    ensures { Cleared (n0.old ∷ n1.old ∷ n2.old ∷ n3.old ∷ []) (e0.old ∷ e1.old ∷ e2.old ∷ e3.old ∷ []) (n0.new ∷ n1.new ∷ n2.new ∷ n3.new ∷ []) (e0.new ∷ e1.new ∷ e2.new ∷ e3.new ∷ []) }
{
    clear(n0);
    clear(e0);
    clear(n1);
    clear(e1);
    clear(n2);
    clear(e2);
    clear(n3);
    clear(e3);
}
