// Lines of text: words with a space between two, numbers in decimal, and a newline.
ghost use Rattle.std.specs.Prelude.{[], ◌∷◌, ◌<◌, ◌^◌};
ghost use Rattle.std.specs.Fmt.{decimal};
ghost use Rattle.timing.specs.Checks.{sizes};
ghost use Rattle.format.specs.Text.{line, board_line, arc_line, counts_line, refused_line};
ghost use Rattle.records.specs.Lines.{DelayInRange};
ghost use Rattle.records.specs.Writing.{HasRoom, Puts};

use crate::put::Writer;
use itoa::Integer;

// A word and three numbers.
#[tactic(auto, unfolding(format::specs::Text::words))]
fn triple_line<I: Integer>(w: &mut Writer, word: &[u8], x: usize, y: usize, z: I)
    requires { HasRoom (line word.now (decimal x ∷ decimal y ∷ I.text z ∷ [])) w.old }
    ensures { Puts (line word.now (decimal x ∷ decimal y ∷ I.text z ∷ [])) w.old w.new }
{
    w.text(word);
    w.number(x);
    w.number(y);
    w.number(z);
    w.byte(b'\n');
}

// Three numbers: a `Board` would ask more of the caller than that each is below 256.
pub fn board_line(w: &mut Writer, inputs: usize, outputs: usize, vertices: usize)
    requires inputs_bound { inputs < 256 }
    requires outputs_bound { outputs < 256 }
    requires vertices_bound { vertices < 256 }
    requires room { HasRoom (board_line (sizes inputs outputs vertices)) w.old }
    ensures { Puts (board_line (sizes inputs outputs vertices)) w.old w.new }
{
    triple_line(w, b"board", inputs, outputs, vertices);
}

pub fn arc_line(w: &mut Writer, u: usize, v: usize, delay: i32)
    requires u_bound { u < 256 }
    requires v_bound { v < 256 }
    requires delay_in_range { DelayInRange delay }
    requires room { HasRoom (arc_line (record { from = u; to = v; delay = delay })) w.old }
    ensures { Puts (arc_line (record { from = u; to = v; delay = delay })) w.old w.new }
{
    triple_line(w, b"arc", u, v, delay);
}

// Two words, each with its number.
#[tactic(auto, unfolding(format::specs::Text::words))]
fn pair_line(w: &mut Writer, first: &[u8], x: usize, second: &[u8], y: usize)
    requires { HasRoom (line first.now (decimal x ∷ second.now ∷ decimal y ∷ [])) w.old }
    ensures { Puts (line first.now (decimal x ∷ second.now ∷ decimal y ∷ [])) w.old w.new }
{
    w.text(first);
    w.number(x);
    w.byte(b' ');
    w.text(second);
    w.number(y);
    w.byte(b'\n');
}

pub fn counts_line(w: &mut Writer, steps: usize, arcs: usize)
    requires steps_bound { steps < 10 ^ 10 }
    requires arcs_bound { arcs < 10 ^ 10 }
    requires room { HasRoom (counts_line steps arcs) w.old }
    ensures { Puts (counts_line steps arcs) w.old w.new }
{
    pair_line(w, b"accepted", steps, b"arcs", arcs);
}

pub fn refused_line(w: &mut Writer, number: usize, offset: usize)
    requires number_bound { number < 10 ^ 10 }
    requires offset_bound { offset < 10 ^ 10 }
    requires room { HasRoom (refused_line number offset) w.old }
    ensures { Puts (refused_line number offset) w.old w.new }
{
    pair_line(w, b"refused", number, b"at", offset);
}
