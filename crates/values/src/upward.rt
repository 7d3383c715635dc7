//! The two ways along the elements that a node lies in: upward to the closest that passes a test, and down from the root.
ghost use Rattle.std.specs.Prelude.{◌≡◌, ℕ, Bool, take};
ghost use Rattle.std.specs.Option.{option_map};
ghost use Rattle.card.specs.Contents.{above};
ghost use Rattle.document.specs.Reads.{card_of, numbered};
ghost use Rattle.document.specs.Said.{first_passing};
ghost use Rattle.values.specs.Upward.{IsTest, IsStep, stepped};

use card::MAX_DEPTH;
use document::SvgNode;

/// The closest of the first `most` elements, from a node upward, that passes a test.
pub fn closest_among<'a, F: Fn(SvgNode<'a>) -> bool>(
    node: SvgNode<'a>,
    most: usize,
    passes: F,
) -> Option<SvgNode<'a>>
    requires { F.IsAlwaysCallable passes }
    ensures { (met : ℕ → Bool) → IsTest node.entry.doc (F.post passes) met → result ≡ option_map (numbered node.entry.doc) (first_passing met (take most (above (card_of node.entry.doc) node.entry.id))) }
{
    // By number, since a node is a document with one: the walk carries the one document, and copies it nowhere.
    let mut id = node.id;
    let mut left = most;
    // Tried as `successors(..).filter(..).take(most).find(..)`: `filter` asks for an end, which `successors` does not
    // show. With `take(node.doc.len())` before it the clause stayed unproved, and no lemma says what `successors` yields.
    while left > 0 {
        let at = node.doc.node(id);
        if at.is_element() {
            if passes(at) {
                return Some(at);
            }
            left -= 1;
        }
        id = at.parent()?.id;
    }
    None
}

/// The closest element, from a node upward, that passes a test.
pub fn closest_that<'a, F: Fn(SvgNode<'a>) -> bool>(
    node: SvgNode<'a>,
    passes: F,
) -> Option<SvgNode<'a>>
    requires { F.IsAlwaysCallable passes }
    ensures { (met : ℕ → Bool) → IsTest node.entry.doc (F.post passes) met → result ≡ option_map (numbered node.entry.doc) (first_passing met (above (card_of node.entry.doc) node.entry.id)) }
{
    closest_among(node, MAX_DEPTH, passes)
}

/// What a value becomes on the way down to a node: it starts at the root, and each element changes it.
///
/// The step is given the element's number: the bound of a function that calls itself may not name a lifetime yet.
pub fn step_down<T, F: Fn(u32, T) -> T>(node: SvgNode<'_>, start: T, step: &F) -> T
    requires { F.IsAlwaysCallable step.now }
    ensures { (made : ℕ → T → T) → IsStep (F.post step.now) made → result ≡ stepped made start (above (card_of node.entry.doc) node.entry.id) }
{
    let Some(parent) = node.parent() else {
        return start;
    };
    let around = step_down(parent, start, step);
    if node.is_element() {
        step(node.id, around)
    } else {
        around
    }
}
