// The entry points, each with its answer written.
use numbering_import::SuppliedFigures;
use numbering_report::answer::{Direction, PartReport};
use numbering_whole::shape::RunFigures;
use refusals::Refusal;
use std::io;
use std::io::{Read, Write};
use store::{Counts, RunElimination};
use test_vectors::{accepted, refused};

// A given node as a word: 65,535 for a larger one.
fn word(x: usize) -> u16 {
    if x < 65535 { x as u16 } else { 65535 }
}

pub(crate) fn adjacency(
    output: &mut impl Write,
    starts: &[u16],
    neighbours: &[u16],
) -> io::Result<()> {
    match graph::test_adjacency(starts, neighbours) {
        Err(refusal) => refused(output, u16::from(refusal)),
        Ok(()) => accepted(output, &[0u64; 0]),
    }
}

pub(crate) fn rooted(
    output: &mut impl Write,
    starts: &[u16],
    neighbours: &[u16],
    root: usize,
    levels: &mut [u16],
    sizes: &mut [u16],
) -> io::Result<()> {
    match levels::rooted_levels(starts, neighbours, word(root), levels, sizes) {
        Err(refusal) => refused(output, u16::from(refusal)),
        Ok(f) => accepted(
            output,
            &[u64::from(f.depth), u64::from(f.width), u64::from(f.reached)],
        ),
    }
}

pub(crate) fn ends(
    output: &mut impl Write,
    starts: &[u16],
    neighbours: &[u16],
    node: usize,
    scratch: &mut [u16],
) -> io::Result<()> {
    match levels::ends(starts, neighbours, word(node), scratch) {
        Err(refusal) => refused(output, u16::from(refusal)),
        Ok(e) => accepted(
            output,
            &[
                u64::from(e.v),
                u64::from(e.u),
                u64::from(e.k),
                u64::from(e.widthv),
                u64::from(e.widthu),
                u64::from(e.passes),
            ],
        ),
    }
}

pub(crate) fn combined(
    output: &mut impl Write,
    starts: &[u16],
    neighbours: &[u16],
    node: usize,
    levels: &mut [u16],
    scratch: &mut [u16],
) -> io::Result<()> {
    match levels::combined_levels(starts, neighbours, word(node), levels, scratch) {
        Err(refusal) => refused(output, u16::from(refusal)),
        Ok(f) => accepted(output, &[u64::from(f.k), u64::from(f.width)]),
    }
}

fn direction(output: &mut impl Write, d: Direction) -> io::Result<()> {
    match d {
        Direction::Forward => output.write_all(b" Forward"),
        Direction::Reversed => output.write_all(b" Reversed"),
    }
}

fn report_figures(output: &mut impl Write, r: PartReport) -> io::Result<()> {
    accepted(
        output,
        &[
            u64::from(r.v),
            u64::from(r.u),
            u64::from(r.k),
            u64::from(r.width),
            u64::from(r.passes),
        ],
    )?;
    let way = r.direction;
    direction(output, way)
}

pub(crate) fn part_report(
    output: &mut impl Write,
    starts: &[u16],
    neighbours: &[u16],
    counts: &[u16],
    node: usize,
    scratch: &mut [u16],
) -> io::Result<()> {
    match numbering_report::part_report(starts, neighbours, counts, word(node), scratch) {
        Err(refusal) => refused(output, u16::from(refusal)),
        Ok(r) => report_figures(output, r),
    }
}

pub(crate) fn measures(
    output: &mut impl Write,
    starts: &[u16],
    neighbours: &[u16],
    counts: &[u16],
    numbering: &[u16],
    scratch: &mut [u16],
) -> io::Result<()> {
    match numbering_measures::measures(starts, neighbours, counts, numbering, scratch) {
        Err(refusal) => refused(output, u16::from(refusal)),
        Ok(m) => {
            accepted(
                output,
                &[
                    u64::from(m.bandwidth),
                    u64::from(m.profile),
                    u64::from(m.front),
                ],
            )
        }
    }
}

// The next figure of the input: two numbers, the low one first.
fn figure(input: &mut impl Read) -> io::Result<u64> {
    let low = test_vectors::number(input)? % 4294967296;
    let high = test_vectors::number(input)? % 4294967296;
    Ok((low + 4294967296 * high) as u64)
}

// The three figures stand behind the case, which no other call has.
pub(crate) fn import_numbering(
    input: &mut impl Read,
    output: &mut impl Write,
    starts: &[u16],
    neighbours: &[u16],
    counts: &[u16],
    pairs: &[u16],
    numbers: &mut [u16],
    scratch: &mut [u16],
) -> io::Result<()> {
    let bandwidth = figure(input)?;
    let profile = figure(input)?;
    let front = figure(input)?;
    let figures = SuppliedFigures {
        bandwidth,
        profile,
        front,
    };
    match numbering_import::import_numbering(
        starts, neighbours, counts, pairs, figures, numbers, scratch,
    ) {
        Err(refusal) => refused(output, u16::from(refusal)),
        Ok(()) => accepted(output, &[0u64; 0]),
    }
}

// The seven figures of a run.
fn run_figures(output: &mut impl Write, f: RunFigures) -> io::Result<()> {
    accepted(
        output,
        &[
            u64::from(f.nodes),
            u64::from(f.parts),
            u64::from(f.bandwidth),
            u64::from(f.profile),
            u64::from(f.front),
            u64::from(f.levels),
            u64::from(f.width),
        ],
    )
}

// What a numbering call answers.
fn numbered(output: &mut impl Write, answer: Result<RunFigures, Refusal>) -> io::Result<()> {
    match answer {
        Err(refusal) => refused(output, u16::from(refusal)),
        Ok(f) => run_figures(output, f),
    }
}

fn elimination_counts(output: &mut impl Write, c: Counts) -> io::Result<()> {
    accepted(output, &[u64::from(c.marked), u64::from(c.new)])
}

// What the elimination answers.
fn counted(output: &mut impl Write, answer: Result<Counts, Refusal>) -> io::Result<()> {
    match answer {
        Err(refusal) => refused(output, u16::from(refusal)),
        Ok(c) => elimination_counts(output, c),
    }
}

pub(crate) fn eliminate(
    output: &mut impl Write,
    starts: &[u16],
    neighbours: &[u16],
    counts: &[u16],
    numbering: &[u16],
    scratch: &mut [u16],
    bytes: &mut [u8],
) -> io::Result<()> {
    counted(
        output,
        store::eliminate(starts, neighbours, counts, numbering, scratch, bytes),
    )
}

fn mapped(
    output: &mut impl Write,
    starts: &[u16],
    neighbours: &[u16],
    counts: &[u16],
    numbering: &[u16],
    scratch: &mut [u16],
    first: &mut [u16],
    place: &mut [u32],
) -> io::Result<()> {
    match store_map::store_map(starts, neighbours, counts, numbering, scratch, first, place) {
        Err(refusal) => refused(output, u16::from(refusal)),
        Ok(f) => accepted(output, &[u64::from(f.profile), u64::from(f.unknowns)]),
    }?;
    test_vectors::show_places(output, place)
}

// The store map. No other call is lent a list of 32 bits: its length comes behind those of the other lists, and its entries behind the answer.
pub(crate) fn store_map(
    input: &mut impl Read,
    output: &mut impl Write,
    starts: &[u16],
    neighbours: &[u16],
    counts: &[u16],
    numbering: &[u16],
    scratch: &mut [u16],
    first: &mut [u16],
) -> io::Result<()> {
    let mut place = [0u32; 33000];
    let count = test_vectors::lend_places(input, &mut place)?;
    mapped(
        output,
        starts,
        neighbours,
        counts,
        numbering,
        scratch,
        first,
        &mut place[..count],
    )
}

// What a numbering call with the elimination after it answers: its figures are followed by the elimination's answer.
fn eliminated(output: &mut impl Write, answer: Result<RunElimination, Refusal>) -> io::Result<()> {
    match answer {
        Err(refusal) => refused(output, u16::from(refusal)),
        Ok(both) => {
            run_figures(output, both.figures)?;
            output.write_all(b" ")?;
            counted(output, both.elimination)
        }
    }
}

// The calls that number, alone or with the elimination after them.
pub(crate) fn number(
    output: &mut impl Write,
    call: usize,
    starts: &[u16],
    neighbours: &[u16],
    counts: &[u16],
    numbers: &mut [u16],
    levels: &mut [u16],
    passes: &mut [u16],
    scratch: &mut [u16],
    bytes: &mut [u8],
) -> io::Result<()> {
    match call {
        8 => numbered(
            output,
            numbering::run(starts, neighbours, counts, numbers, levels, passes, scratch),
        ),
        9 => eliminated(
            output,
            store::run_eliminate(
                starts, neighbours, counts, numbers, levels, passes, scratch, bytes,
            ),
        ),
        11 => numbered(
            output,
            numbering::reverse_cuthill_mckee(
                starts, neighbours, counts, numbers, levels, passes, scratch,
            ),
        ),
        12 => eliminated(
            output,
            store::cuthill_eliminate(
                starts, neighbours, counts, numbers, levels, passes, scratch, bytes,
            ),
        ),
        _ => Ok(()),
    }
}

pub(crate) fn mesh(
    output: &mut impl Write,
    n: usize,
    elements: &[u16],
    starts: &mut [u16],
    neighbours: &mut [u16],
    scratch: &mut [u16],
) -> io::Result<()> {
    match mesh::mesh_lists(n, elements, starts, neighbours, scratch) {
        Err(refusal) => refused(output, u16::from(refusal)),
        Ok(count) => accepted(output, &[u64::from(count)]),
    }
}
