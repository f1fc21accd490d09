// The words of a seed, and the arcs that they draw.
ghost use Rattle.std.specs.Prelude.{◌≡◌, ◌+◌, ◌≤◌, ◌<◌};
ghost use Rattle.pf_gen.specs.Generator.{IsAmong, behind, drawn_arc, first_generator, inner_arc, inner_node, sink_arc, source_arc, three_words, word_of};

use pf_model::AffineArc;
use rand_core::utils::NextWord;
use rand_pcg::Lcg64Xsh32;

/// Three words, in the order in which they are drawn.
#[derive(Clone, Copy)]
pub struct Words {
    pub x: u32,
    pub y: u32,
    pub z: u32,
}

/// The generator of a seed, of which no word is drawn yet.
pub fn begin(seed: u64) -> Lcg64Xsh32
    ensures { result ≡ first_generator seed }
{
    Lcg64Xsh32::new(seed, 54)
}

// Draws a word.
fn draw(generator: &mut Lcg64Xsh32) -> u32
    ensures word { result ≡ word_of generator.old }
    ensures moved { generator.new ≡ behind generator.old }
{
    generator.next_word()
}

/// Draws three words.
pub fn draw_three(generator: &mut Lcg64Xsh32) -> Words
    ensures words { result ≡ three_words generator.old }
    ensures moved { generator.new ≡ behind (behind (behind generator.old)) }
{
    let x = draw(generator);
    let y = draw(generator);
    let z = draw(generator);
    Words { x, y, z }
}

// The node that a word draws, which is neither the source nor the sink.
fn inner_node(n: u32, word: u32) -> u32
    requires { 3 ≤ n }
    ensures node { result ≡ inner_node n word }
    ensures inner { result + 1 < n }
{
    1 + word % (n - 2)
}

// An arc out of the source, whose capacity does not fall.
fn source_arc(n: u32, words: Words) -> AffineArc
    requires { 3 ≤ n }
    ensures drawn { result ≡ source_arc n words }
    ensures among { IsAmong n result }
{
    AffineArc {
        tail: 0,
        head: inner_node(n, words.x),
        a: i64::from(words.y % 1001),
        b: i64::from(words.z % 101),
    }
}

// An arc into the sink, whose capacity does not rise, and is not below 0 at 1000.
fn sink_arc(n: u32, words: Words) -> AffineArc
    requires { 3 ≤ n }
    ensures drawn { result ≡ sink_arc n words }
    ensures among { IsAmong n result }
{
    let slope = words.z % 11;
    AffineArc {
        tail: inner_node(n, words.x),
        head: n - 1,
        a: i64::from(1000 * slope + words.y % 1001),
        b: -i64::from(slope),
    }
}

// An arc between inner nodes.
fn inner_arc(n: u32, words: Words) -> AffineArc
    requires { 3 ≤ n }
    ensures drawn { result ≡ inner_arc n words }
    ensures among { IsAmong n result }
{
    AffineArc {
        tail: inner_node(n, words.x),
        head: inner_node(n, words.y),
        a: i64::from(words.z % 1001),
        b: 0,
    }
}

/// The arc number `k`, counted from 1, among `n` nodes.
pub fn arc_of(n: u32, k: u32, words: Words) -> AffineArc
    requires { 3 ≤ n }
    ensures drawn { result ≡ drawn_arc n k words }
    ensures among { IsAmong n result }
{
    if k % 4 == 0 {
        return source_arc(n, words);
    }
    if k % 4 == 1 {
        return sink_arc(n, words);
    }
    inner_arc(n, words)
}
