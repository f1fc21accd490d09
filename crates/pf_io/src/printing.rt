// Lines of answers. Each begins with a word, and the numbers that it is known by: none, or the number of a cut, or two.
// What follows is numbers, a fraction, a side or labels, each field with one space in front. No call takes memory.
ghost use Rattle.std.specs.Prelude.{◌≡◌, ◌++◌, [], ◌∷◌, ◌≤◌, map, false};
ghost use Rattle.std.specs.Fmt.{decimal, signed_decimal};
ghost use Rattle.pf_text.specs.Spelling.{side_text, spaced, rest_of_line, head_text, row_line, table_text, fraction_line, side_line, label_line};
ghost use Rattle.pf_io.specs.Printing.{Adds, is_spent};

use crate::device::{Failed, Sink};
use crate::printer::Printer;
use pf_frame::FlowTable;
use pf_rat::Rat;

/// A space, and the number.
pub fn print_number<K: Sink>(out: &mut Printer<'_, K>, number: &i128) -> Result<(), Failed>
    requires { is_spent out.old ≡ false }
    ensures { Adds out.old out.new (32 ∷ signed_decimal number.now) result }
{
    let value = *number;
    out.field(value)
}

/// A space, and a number that is not below 0.
pub fn print_index<K: Sink>(out: &mut Printer<'_, K>, index: usize) -> Result<(), Failed>
    requires { is_spent out.old ≡ false }
    ensures { Adds out.old out.new (32 ∷ decimal index) result }
{
    out.field(index as i128)
}

/// The numbers, each with a space in front.
pub fn print_numbers<K: Sink>(out: &mut Printer<'_, K>, numbers: &[i128]) -> Result<(), Failed>
    requires { is_spent out.old ≡ false }
    ensures { Adds out.old out.new (spaced (map signed_decimal numbers.now)) result }
{
    'items: for number in numbers {
        print_number(out, number)?;
    }
    Ok(())
}

// The numbers that a line is known by, each with a space in front.
fn print_indices<K: Sink>(out: &mut Printer<'_, K>, indices: &[usize]) -> Result<(), Failed>
    requires { is_spent out.old ≡ false }
    ensures { Adds out.old out.new (spaced (map decimal indices.now)) result }
{
    'items: for index in indices {
        print_index(out, *index)?;
    }
    Ok(())
}

// The labels, each with a space in front.
fn print_label_fields<K: Sink>(out: &mut Printer<'_, K>, labels: &[u32]) -> Result<(), Failed>
    requires { is_spent out.old ≡ false }
    ensures { Adds out.old out.new (spaced (map decimal labels.now)) result }
{
    'items: for label in labels {
        print_index(out, *label as usize)?;
    }
    Ok(())
}

// One character of a side.
fn print_node<K: Sink>(out: &mut Printer<'_, K>, inside: bool) -> Result<(), Failed>
    requires { is_spent out.old ≡ false }
    ensures { Adds out.old out.new (side_text (inside ∷ [])) result }
{
    if inside {
        return out.byte(b'1');
    }
    out.byte(b'0')
}

/// One character for each node.
pub fn print_side<K: Sink>(out: &mut Printer<'_, K>, side: &[bool]) -> Result<(), Failed>
    requires { is_spent out.old ≡ false }
    ensures { Adds out.old out.new (side_text side.now) result }
{
    'nodes: for inside in side {
        print_node(out, *inside)?;
    }
    Ok(())
}

/// What a line begins with: its word, and the numbers that it is known by.
pub fn print_head<K: Sink>(
    out: &mut Printer<'_, K>,
    word: &[u8],
    indices: &[usize],
) -> Result<(), Failed>
    requires { is_spent out.old ≡ false }
    ensures { Adds out.old out.new (head_text word.now indices.now) result }
{
    out.word(word)?;
    print_indices(out, indices)
}

/// The rest of a line of numbers, each with a space in front, and the line feed.
pub fn print_rest<K: Sink>(out: &mut Printer<'_, K>, numbers: &[i128]) -> Result<(), Failed>
    requires { is_spent out.old ≡ false }
    ensures { Adds out.old out.new (rest_of_line (map signed_decimal numbers.now)) result }
{
    print_numbers(out, numbers)?;
    out.byte(b'\n')
}

// The rest of a line that is a side.
fn print_rest_side<K: Sink>(out: &mut Printer<'_, K>, side: &[bool]) -> Result<(), Failed>
    requires { is_spent out.old ≡ false }
    ensures { Adds out.old out.new (rest_of_line (side_text side.now ∷ [])) result }
{
    out.byte(b' ')?;
    print_side(out, side)?;
    out.byte(b'\n')
}

// The rest of a line of numbers and a side.
fn print_rest_cut<K: Sink>(
    out: &mut Printer<'_, K>,
    numbers: &[i128],
    side: &[bool],
) -> Result<(), Failed>
    requires { is_spent out.old ≡ false }
    ensures { Adds out.old out.new (rest_of_line (map signed_decimal numbers.now ++ (side_text side.now ∷ []))) result }
{
    print_numbers(out, numbers)?;
    print_rest_side(out, side)
}

// The rest of a line of labels.
fn print_rest_labels<K: Sink>(out: &mut Printer<'_, K>, labels: &[u32]) -> Result<(), Failed>
    requires { is_spent out.old ≡ false }
    ensures { Adds out.old out.new (rest_of_line (map decimal labels.now)) result }
{
    print_label_fields(out, labels)?;
    out.byte(b'\n')
}

// The two numbers of a fraction, each with a space in front.
fn print_fraction<K: Sink>(out: &mut Printer<'_, K>, at: &Rat) -> Result<(), Failed>
    requires { is_spent out.old ≡ false }
    ensures { Adds out.old out.new (spaced (signed_decimal at.now.p ∷ signed_decimal at.now.q ∷ [])) result }
{
    print_numbers(out, &[at.p(), at.q()])
}

// The rest of a line of a fraction and numbers.
fn print_rest_fraction<K: Sink>(
    out: &mut Printer<'_, K>,
    at: &Rat,
    numbers: &[i128],
) -> Result<(), Failed>
    requires { is_spent out.old ≡ false }
    ensures { Adds out.old out.new (rest_of_line (signed_decimal at.now.p ∷ signed_decimal at.now.q ∷ map signed_decimal numbers.now)) result }
{
    print_fraction(out, at)?;
    print_rest(out, numbers)
}

/// A line of numbers, as `k K`, `f F1 .. FM`, `f J F1 .. FM` and `r J R X1 .. XM`.
pub fn print_row<K: Sink>(
    out: &mut Printer<'_, K>,
    word: &[u8],
    indices: &[usize],
    numbers: &[i128],
) -> Result<(), Failed>
    requires { is_spent out.old ≡ false }
    ensures { Adds out.old out.new (row_line word.now indices.now numbers.now) result }
{
    print_head(out, word, indices)?;
    print_rest(out, numbers)
}

/// Each row of a table on such a line, numbered one after the other from `first` on, as `f J F1 .. FM` and `r R X1 .. XM`.
pub fn print_rows<K: Sink>(
    out: &mut Printer<'_, K>,
    word: &[u8],
    first: usize,
    table: &FlowTable,
) -> Result<(), Failed>
    requires usable { is_spent out.old ≡ false }
    requires first { first ≤ 1 }
    ensures { Adds out.old out.new (table_text word.now first table.now) result }
{
    'rows: for j in 0..table.rows() {
        print_row(out, word, &[first + j], table.row(j))?;
    }
    Ok(())
}

/// A line of a fraction, and numbers after it, as `d P Q`, `x ID P Q` and `b J P Q V`.
pub fn print_fraction_row<K: Sink>(
    out: &mut Printer<'_, K>,
    word: &[u8],
    indices: &[usize],
    at: &Rat,
    numbers: &[i128],
) -> Result<(), Failed>
    requires { is_spent out.old ≡ false }
    ensures { Adds out.old out.new (fraction_line word.now indices.now at.now numbers.now) result }
{
    print_head(out, word, indices)?;
    print_rest_fraction(out, at, numbers)
}

/// A line of numbers, and a side after them, as `s SIDE`, `s J SIDE` and `s J A B SIDE`.
pub fn print_side_row<K: Sink>(
    out: &mut Printer<'_, K>,
    word: &[u8],
    indices: &[usize],
    numbers: &[i128],
    side: &[bool],
) -> Result<(), Failed>
    requires { is_spent out.old ≡ false }
    ensures { Adds out.old out.new (side_line word.now indices.now numbers.now side.now) result }
{
    print_head(out, word, indices)?;
    print_rest_cut(out, numbers, side)
}

/// A line of labels, as `s L1 .. LN` and `s J L1 .. LN`.
pub fn print_labels<K: Sink>(
    out: &mut Printer<'_, K>,
    word: &[u8],
    indices: &[usize],
    labels: &[u32],
) -> Result<(), Failed>
    requires { is_spent out.old ≡ false }
    ensures { Adds out.old out.new (label_line word.now indices.now labels.now) result }
{
    print_head(out, word, indices)?;
    print_rest_labels(out, labels)
}
