// Elements of a mesh, as words: a kind word, then its nodes. Their tests, for the mesh call and for a file alike.
#![tactic(auto)]

ghost use Rattle.std.specs.Prelude.{◌≡◌, length, eqb, ltb};
ghost use Rattle.spec.specs.Refusal.{refuse, ◌or_else◌};
ghost use Rattle.spec.specs.Mesh.{node_count, element_refusal, elements_refusal};
ghost use Rattle.refusals.specs.Numbers.{number_in};

pub mod nodes;

use refusals::Refusal;

// The node count by kind; there is no kind 0.
const NODE_COUNTS: [u8; 11] = [0, 2, 3, 4, 4, 5, 6, 8, 6, 8, 10];

// The node count of a kind, 0 for an unknown kind.
pub fn node_count(kind: u16) -> usize
    ensures { result ≡ node_count kind }
{
    let k = usize::from(kind);
    if k < NODE_COUNTS.len() {
        usize::from(NODE_COUNTS[k])
    } else {
        0
    }
}

// Whether the kind is unknown.
fn unknown(kind: u16) -> bool
    ensures { result ≡ eqb (node_count kind) 0 }
{
    node_count(kind) == 0
}

// The first refusal of two, 0 for none.
fn first(a: u16, b: u16) -> u16
    ensures { result ≡ a or_else b }
{
    if a == 0 { b } else { a }
}

// 9 for an unknown kind, `short` for a record that runs past the end, else 0. `left` counts the words after the kind word.
fn record_refusal(short: u16, kind: u16, left: usize) -> u16
    ensures { result ≡ refuse (eqb (node_count kind) 0) 9 or_else refuse (ltb left (node_count kind)) short }
{
    if unknown(kind) {
        return 9;
    }
    if left < node_count(kind) {
        return short;
    }
    0
}

// What the element of this kind is refused by, or 0: "9 before 10 in each". `rest` is what follows its kind word; `short` is the
// number for a record that runs past the end: 9 in the mesh call, 12 in a file. By numbers, and no `Refusal`: its clause holds of every number
// `short`, and docs/DECISIONS.md names it as a function for which every input is legal.
pub fn element_refusal(short: u16, n: usize, kind: u16, rest: &[u16]) -> u16
    ensures { result ≡ element_refusal short n kind rest.now }
{
    let left = rest.len();
    let end = node_count(kind).min(left);
    let of_record = record_refusal(short, kind, left);
    let of_nodes = nodes::nodes_refusal(n, &rest[..end]);
    first(of_record, of_nodes)
}

// What the elements are refused by, 9 or 10: "Elements are tested one by one".
pub fn test_elements(n: usize, elements: &[u16]) -> Result<(), Refusal>
    ensures { number_in result ≡ elements_refusal (length elements.now) n elements.now }
{
    let mut at = 0;
    // A while: a step takes the words of one element.
    while at < elements.len() {
        let kind = elements[at];
        let number = element_refusal(9, n, kind, &elements[at + 1..]);
        if let Ok(refusal) = Refusal::try_from(number) {
            return Err(refusal);
        }
        at = at + 1 + node_count(kind);
    }
    Ok(())
}
