// The text of a network, line by line.
ghost use Rattle.std.specs.Prelude.{◌≡◌, ◌+◌, ◌*◌, ◌≤◌, ◌<◌, ◌++◌, ◌∷◌, IfOk};
ghost use Rattle.std.specs.Fmt.{decimal, signed_decimal};
ghost use Rattle.pf_text.specs.Spelling.{line};
ghost use Rattle.pf_gen.specs.Generator.{IsAmong, arc_fields, behind, drawn_arc, front_lines, net_text, text_of_lines, three_words};

use crate::drawing::{arc_of, begin, draw_three};
use itoa::Buffer;
use pf_frame::NoMemory;
use pf_model::AffineArc;
use rand_pcg::Lcg64Xsh32;
use std::alloc::Global;

// Adds these bytes.
fn add(text: &mut Vec<u8>, bytes: &[u8]) -> Result<(), NoMemory>
    ensures { IfOk result (λ _. text.new.items ≡ text.old.items ++ bytes.now) }
{
    text.extend_from_slice(bytes)?;
    Ok(())
}

// Adds a space and a number.
fn add_number(text: &mut Vec<u8>, number: i64) -> Result<(), NoMemory>
    ensures { IfOk result (λ _. text.new.items ≡ text.old.items ++ (32 ∷ signed_decimal number)) }
{
    let mut digits = Buffer::new();
    add(text, b" ")?;
    add(text, digits.format(number).as_bytes())?;
    Ok(())
}

// Adds a space and a count.
fn add_count(text: &mut Vec<u8>, count: u32) -> Result<(), NoMemory>
    ensures { IfOk result (λ _. text.new.items ≡ text.old.items ++ (32 ∷ decimal count)) }
{
    let mut digits = Buffer::new();
    add(text, b" ")?;
    add(text, digits.format(count).as_bytes())?;
    Ok(())
}

// Adds the line of an arc.
fn add_arc(text: &mut Vec<u8>, arc: AffineArc) -> Result<(), NoMemory>
    requires { IsAmong 1000 arc }
    ensures { IfOk result (λ _. text.new.items ≡ text.old.items ++ line (arc_fields arc)) }
{
    add(text, b"a")?;
    add_count(text, arc.tail + 1)?;
    add_count(text, arc.head + 1)?;
    add_number(text, arc.a)?;
    add_number(text, arc.b)?;
    add(text, b"\n")?;
    Ok(())
}

// Adds the lines before the arcs: the header, the interval, the source and the sink.
fn add_front(text: &mut Vec<u8>, n: u32, m: u32) -> Result<(), NoMemory>
    ensures { IfOk result (λ _. text.new.items ≡ text.old.items ++ text_of_lines (front_lines n m)) }
{
    add(text, b"p par")?;
    add_count(text, n)?;
    add_count(text, m)?;
    add(text, b"\ni 0 1 1000 1\nn 1 s\nn")?;
    add_count(text, n)?;
    add(text, b" t\n")?;
    Ok(())
}

// Draws arc number `k`, counted from 1, and adds its line.
fn add_drawn(text: &mut Vec<u8>, n: u32, k: u32, generator: &mut Lcg64Xsh32) -> Result<(), NoMemory>
    requires low { 3 ≤ n }
    requires high { n ≤ 1000 }
    ensures added { IfOk result (λ _. text.new.items ≡ text.old.items ++ line (arc_fields (drawn_arc n k (three_words generator.old)))) }
    ensures moved { generator.new ≡ behind (behind (behind generator.old)) }
{
    let words = draw_three(generator);
    add_arc(text, arc_of(n, k, words))?;
    Ok(())
}

/// The text of the kind `par` of the network of `n` nodes and `m` arcs that the seed draws, as docs/formats/generate.md writes it out.
/// Its words are those of the generator PCG XSH RR 64/32 (O'Neill 2014) that begins at the seed, in stream 54.
pub fn net_text(alloc: Global, seed: u64, n: u32, m: u32) -> Result<Vec<u8>, NoMemory>
    requires low { 3 ≤ n }
    requires high { n ≤ 1000 }
    requires arcs { m ≤ 10000 }
    ensures { IfOk result (λ text. text.items ≡ net_text seed n m) }
{
    let mut text = Vec::new(alloc);
    let mut generator = begin(seed);
    add_front(&mut text, n, m)?;
    'arcs: for i in 0..m {
        add_drawn(&mut text, n, i + 1, &mut generator)?;
    }
    add(&mut text, b"end\n")?;
    Ok(text)
}
