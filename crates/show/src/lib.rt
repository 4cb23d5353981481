// A thread's text becomes the text of its graph, or of its refusal: what the program `graph` does, on lent tables.
#![tactic(auto)]

ghost use Rattle.std.specs.Prelude.{◌≡◌, length};
ghost use Rattle.printed.specs.Printed.{print'};
ghost use Rattle.show.specs.Show.{shown_refusal, TableShown, TextShown};

use builder::build;
use print::{print, print_refusal};
use printed::PrintError;
use text::read;
use thread::{LINE_WIDTH, Refusal, clear};

#[tactic(auto, unfolding(crate::specs::Show::shown_refusal))]
fn show_refusal(refusal: Refusal, area: &mut [u8]) -> Result<usize, PrintError>
    ensures { print' result area.new ≡ shown_refusal refusal (length area.old) }
{
    print_refusal(refusal.number(), refusal.place(), area)
}

// the graph of a table
fn show_table(
    model: u32,
    table: &[u32],
    nodes: &mut [u32],
    edges: &mut [u32],
    area: &mut [u8],
) -> Result<usize, PrintError>
    ensures { TableShown model table.now (length nodes.old) (length edges.old) (length area.old) result nodes.new edges.new area.new }
{
    match build(model, table, nodes, edges) {
        Err(refusal) => show_refusal(refusal, area),
        Ok(built) => print(model, built.nodes, built.edges, nodes, edges, area),
    }
}

// the graph of a text
pub fn show(
    text: &[u8],
    table: &mut [u32],
    nodes: &mut [u32],
    edges: &mut [u32],
    area: &mut [u8],
) -> Result<usize, PrintError>
    ensures { TextShown text.now (length table.old) (length nodes.old) (length edges.old) (length area.old) result table.new nodes.new edges.new area.new }
{
    match read(text, table) {
        Err(refusal) => {
            clear(nodes);
            clear(edges);
            show_refusal(refusal, area)
        }
        Ok((model, lines)) => {
            let end = (LINE_WIDTH * lines as usize).min(table.len());
            show_table(model, &table[..end], nodes, edges, area)
        }
    }
}
