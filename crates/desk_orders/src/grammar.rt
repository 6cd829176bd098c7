//! The parser of orders.
ghost use Rattle.std.specs.Prelude.{◌≡◌, ◌∷◌, Some};
ghost use Rattle.desk_orders.specs.Orders.{one_word_order, two_word_order, three_word_order, four_word_order};
ghost use Rattle.desk_orders.specs.Orders.{order_except_label, label_order_of_arguments, three_word_learn_order};
ghost use Rattle.desk_orders.specs.Orders.{order_of, order_or_fault, two_word_learn_order};
ghost use Rattle.desk_orders.specs.Words.{remaining_words};

use crate::orders::{Order, OrderFault, is_in_range};
use crate::words::{eep_of, id_of, next_word, number_of, parse_label_rest, quantity_of, state_of};
use learned_devices::Label;

fn one_word_order(name: &[u8]) -> Option<Order>
    ensures { result ≡ one_word_order name.now }
{
    if name == b"list".as_slice() {
        Some(Order::List)
    } else if name == b"status".as_slice() {
        Some(Order::Status)
    } else if name == b"base".as_slice() {
        Some(Order::Base)
    } else {
        None
    }
}

// `learn` with one more word.
fn two_word_learn_order(second: &[u8]) -> Option<Order>
    ensures { result ≡ two_word_learn_order second.now }
{
    if second == b"on".as_slice() {
        Some(Order::LearnOn)
    } else if second == b"off".as_slice() {
        Some(Order::LearnOff)
    } else {
        None
    }
}

// `learn` with two more words.
fn three_word_learn_order(second: &[u8], third: &[u8]) -> Option<Order>
    ensures { result ≡ three_word_learn_order second.now third.now }
{
    if second == b"on".as_slice() && third == b"answer".as_slice() {
        Some(Order::LearnOnAnswer)
    } else if second == b"as".as_slice() {
        Some(Order::LearnAs(eep_of(third)?))
    } else {
        None
    }
}

fn two_word_order(name: &[u8], second: &[u8]) -> Option<Order>
    ensures { result ≡ two_word_order name.now second.now }
{
    if name == b"learn".as_slice() {
        two_word_learn_order(second)
    } else if name == b"remove".as_slice() {
        Some(Order::Remove(id_of(second)?))
    } else if name == b"stop".as_slice() {
        Some(Order::Stop { id: id_of(second)? })
    } else if name == b"teach".as_slice() {
        Some(Order::Teach {
            offset: number_of(second)?,
        })
    } else {
        None
    }
}

fn three_word_order(name: &[u8], second: &[u8], third: &[u8]) -> Option<Order>
    ensures { result ≡ three_word_order name.now second.now third.now }
{
    if name == b"learn".as_slice() {
        three_word_learn_order(second, third)
    } else if name == b"add".as_slice() {
        Some(Order::Add(id_of(second)?, eep_of(third)?))
    } else if name == b"query".as_slice() {
        Some(Order::Query {
            id: id_of(second)?,
            channel: number_of(third)?,
        })
    } else if name == b"blind".as_slice() {
        Some(Order::Blind {
            id: id_of(second)?,
            value: number_of(third)?,
        })
    } else if name == b"central".as_slice() {
        Some(Order::Central {
            offset: number_of(second)?,
            on: state_of(third)?,
        })
    } else {
        None
    }
}

fn four_word_order(name: &[u8], second: &[u8], third: &[u8], fourth: &[u8]) -> Option<Order>
    ensures { result ≡ four_word_order name.now second.now third.now fourth.now }
{
    if name == b"switch".as_slice() {
        Some(Order::Switch {
            id: id_of(second)?,
            channel: number_of(third)?,
            on: state_of(fourth)?,
        })
    } else if name == b"dim".as_slice() {
        Some(Order::Dim {
            id: id_of(second)?,
            channel: number_of(third)?,
            value: number_of(fourth)?,
        })
    } else if name == b"meter".as_slice() {
        Some(Order::Meter {
            id: id_of(second)?,
            channel: number_of(third)?,
            quantity: quantity_of(fourth)?,
        })
    } else if name == b"level".as_slice() {
        Some(Order::Level {
            offset: number_of(second)?,
            value: number_of(third)?,
            ramp: number_of(fourth)?,
        })
    } else {
        None
    }
}

// The order, except `label`, whose shape a line has, whatever its numbers. `name` is the line's first word, and `left`
// the rest after it.
fn order_except_label(name: &[u8], mut left: Option<&[u8]>) -> Option<Order>
    ensures { result ≡ order_except_label (name.now ∷ remaining_words left.entry) }
{
    let words = (
        next_word(&mut left),
        next_word(&mut left),
        next_word(&mut left),
        next_word(&mut left),
    );
    match words {
        (None, ..) => one_word_order(name),
        (Some(second), None, ..) => two_word_order(name, second),
        (Some(second), Some(third), None, _) => three_word_order(name, second, third),
        (Some(second), Some(third), Some(fourth), None) => four_word_order(
            name, second, third, fourth,
        ),
        _ => None,
    }
}

// The order whose shape a line has, if it is in range.
fn order_if_in_range(order: Order) -> Result<Order, OrderFault>
    ensures { result ≡ order_or_fault (Some order) }
{
    if !is_in_range(&order) {
        return Err(OrderFault::Range);
    }
    Ok(order)
}

// The order of a line that begins with the word `label`; `left` is the rest after it.
fn label_order_of_arguments(mut left: Option<&[u8]>) -> Result<Order, OrderFault>
    ensures { result ≡ order_or_fault (label_order_of_arguments (remaining_words left.entry)) }
{
    let digits = next_word(&mut left).ok_or(OrderFault::Syntax)?;
    let id = id_of(digits).ok_or(OrderFault::Syntax)?;
    let text = parse_label_rest(left).ok_or(OrderFault::Syntax)?;
    match Label::of_text(text) {
        Some(label) => order_if_in_range(Order::Label { id, label }),
        None => Err(OrderFault::Range),
    }
}

/// Parses a line of the desk, without its line end, as an order: the words that `Order` shows, with exactly one space
/// between two of them, and nothing before or after. An ID is what `id_of` reads, from `00000000` to `FFFFFFFE`; a
/// profile is three pairs of hexadecimal digits, in upper or lower case, with `-` between them; a number is `0` or up
/// to five decimal digits that do not begin with 0. The text of a label is everything after the ID and one space: 1 to
/// `MAX_LABEL` bytes from space to `~` of ASCII, neither beginning nor ending with a space.
///
/// A line that is no order is rejected as `Range` if it has the form of one, and otherwise as `Syntax`.
pub fn parse(line: &[u8]) -> Result<Order, OrderFault>
    ensures { result ≡ order_of line.now }
{
    let mut left = Some(line);
    let name = next_word(&mut left).ok_or(OrderFault::Syntax)?;
    if name == b"label".as_slice() {
        return label_order_of_arguments(left);
    }
    let order = order_except_label(name, left).ok_or(OrderFault::Syntax)?;
    order_if_in_range(order)
}
