// Functions that ask for a legal graph, its counts and room for the greatest file. Of the working memory only the text is promised: its bytes, in
// front of the output.
ghost use Rattle.std.specs.Prelude.{◌≡◌, false, ◌*◌, ◌≤◌, length};
ghost use Rattle.basis.specs.Lists.{overwrite};
ghost use Rattle.spec.specs.Graph.{graph_refusal, max_nodes};
ghost use Rattle.spec.specs.Lent.{words_per_node};
ghost use Rattle.spec.specs.Numbering.{run};
ghost use Rattle.spec.specs.Unknowns.{bad_counts};
ghost use Rattle.spec.specs.File.{listing};
ghost use Rattle.laws.specs.Handed.{graph_was, size_now};
ghost use Rattle.numbering_whole.specs.Figures.{seven};
ghost use Rattle.file_writing.specs.Figures.{figures_of};
ghost use Rattle.file_renumbering.specs.Room.{TextRoom};

use file_writing::Figures;
use graph_words::legal::unknowns;
use numbering_next::order::Order;
use numbering_whole::legal::number_all;
use numbering_whole::shape::RunFigures;

// The run's figures for the first line.
fn figures(f: RunFigures) -> Figures
    ensures { figures_of result ≡ seven f }
{
    Figures {
        nodes: u32::from(f.nodes),
        parts: u32::from(f.parts),
        bandwidth: f.bandwidth,
        profile: f.profile,
        front: f.front,
        levels: f.levels,
        width: u32::from(f.width),
    }
}

// The renumbering of a legal graph and its text, whose length is returned. What the lists have behind their first n words is no part of it.
pub fn renumber(
    starts: &[u16],
    neighbours: &[u16],
    counts: &[u16],
    scratch: &mut [u16],
    numbers: &mut [u16],
    levels: &mut [u16],
    passes: &mut [u16],
    output: &mut [u8],
) -> usize
    requires neighbours_value { graph_refusal starts.now neighbours.now ≡ 0 }
    requires counts_value { bad_counts (size_now starts) counts.now ≡ false }
    requires max_nodes_in_bounds { (words_per_node * max_nodes ≤ length scratch.old) × TextRoom numbers.old levels.old passes.old output.old }
    ensures value { result ≡ length (listing (graph_was starts neighbours) (run (graph_was starts neighbours) counts.now)) }
    ensures output_value { output.new ≡ overwrite (listing (graph_was starts neighbours) (run (graph_was starts neighbours) counts.now)) output.old }
{
    let n = starts.len() - 1;
    let total = unknowns(counts, n).unwrap();
    let x = &mut numbers[..n];
    let l = &mut levels[..n];
    let f = number_all(
        Order::GibbsPooleStockmeyer,
        starts,
        neighbours,
        counts,
        x,
        l,
        &mut passes[..n],
        scratch,
        total,
    );
    file_writing::legal::write_listing(figures(f), x, l, &passes[..n], output)
}
