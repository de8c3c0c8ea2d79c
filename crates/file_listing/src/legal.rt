// Functions that ask for room for the greatest file. Two things are promised of the working memory: the list of counts, and the text in front of
// the output.
ghost use Rattle.std.specs.Prelude.{◌≡◌, length};
ghost use Rattle.basis.specs.Lists.{overwrite};
ghost use Rattle.spec.specs.Lent.{outcome, filled};
ghost use Rattle.spec.specs.Mesh.{entry_count, start_list, neighbour_list};
ghost use Rattle.spec.specs.File.{file_graph, file_refusal, program_output};
ghost use Rattle.mesh.specs.Answer.{meaning};
ghost use Rattle.file_renumbering.specs.Room.{TextRoom};
ghost use Rattle.file_listing.specs.Counted.{counts_after};
ghost use Rattle.file_listing.specs.Room.{ReadingRoom};

use file_renumbering::legal::renumber;
use refusals::Refusal;

// The two lists of a file's mesh, and their entry count, or the refusal: the header's tests, those of the counts, then those of the elements. The
// counts of unknowns, those of the file or ones, stand in front of the list lent for them.
fn read(
    file: &[u8],
    words: &mut [u16],
    starts: &mut [u16],
    neighbours: &mut [u16],
    scratch: &mut [u16],
    counts: &mut [u16],
) -> Result<u32, Refusal>
    requires { ReadingRoom words.old starts.old neighbours.old scratch.old counts.old }
    ensures result_value { meaning result ≡ outcome (file_refusal file.now) (entry_count (file_graph file.now)) }
    ensures starts_value { starts.new ≡ filled (file_refusal file.now) (start_list (file_graph file.now)) starts.old }
    ensures neighbours_value { neighbours.new ≡ filled (file_refusal file.now) (neighbour_list (file_graph file.now)) neighbours.old }
    ensures counts_value { counts.new ≡ counts_after file.now counts.old }
{
    if let Err(header) = file_reading::test_header(file) {
        return Err(header);
    }
    if let Err(counted) = file_reading::legal::counts::read_counts(file, counts) {
        return Err(counted);
    }
    file_reading::legal::read_mesh(file, words, starts, neighbours, scratch)
}

// Writes what is printed of a file to the front of the output, its listing or the line of its refusal, and returns the length.
pub fn list_file(
    file: &[u8],
    words: &mut [u16],
    starts: &mut [u16],
    neighbours: &mut [u16],
    scratch: &mut [u16],
    numbers: &mut [u16],
    levels: &mut [u16],
    passes: &mut [u16],
    counts: &mut [u16],
    output: &mut [u8],
) -> usize
    requires reading_room { ReadingRoom words.old starts.old neighbours.old scratch.old counts.old }
    requires text_room { TextRoom numbers.old levels.old passes.old output.old }
    ensures value { result ≡ length (program_output file.now) }
    ensures output_value { output.new ≡ overwrite (program_output file.now) output.old }
    ensures counts_value { counts.new ≡ counts_after file.now counts.old }
{
    match read(file, words, starts, neighbours, scratch, counts) {
        Err(refusal) => file_writing::legal::write_refusal(u16::from(refusal), output),
        Ok(entries) => {
            let n = file_reading::legal::nodes(file);
            renumber(
                &starts[..n + 1],
                &neighbours[..entries as usize],
                &counts[..n],
                scratch,
                numbers,
                levels,
                passes,
                output,
            )
        }
    }
}
