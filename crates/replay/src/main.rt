// Replays the answers of the original Rust. The program is run in a folder with the files of data/, one for
// each leaf, one for whole calls and one for the other operations; a line holds the patterns of the inputs and
// of what the Rust gave for them. Each is worked out anew and compared.
#![tactic(auto)]

mod calls;
mod leaves;
mod lines;
mod others;
mod patterns;
mod records;
mod words;

use crate::leaves::Leaf;
use crate::lines::Tally;
use arrayvec::ArrayString;
use std::fmt::Write;
use std::fs::File;
use std::io::Result;

// Replays one file, and adds what was found to a tally.
fn replay(rt: &HostRuntime, total: &mut Tally, leaf: &Leaf) -> Result<()> {
    let name = leaf.name;
    let mut path: ArrayString<32> = ArrayString::new();
    let _ = write!(path, "{name}.txt");
    let Ok(file) = File::open(rt, path.as_str()) else {
        total.add_malformed();
        return println!(rt; "{name}: cannot read");
    };
    let found = lines::read_all(&file, leaf);
    *total += found;
    println!(rt; "{name}: {found}")
}

fn main(rt: HostRuntime) -> Result<()> {
    let leaves = [
        Leaf::new("is_finite", 0, leaves::is_finite),
        Leaf::new("flush_denormal", 0, leaves::flush_denormal),
        Leaf::new("clip", 0, leaves::clip),
        Leaf::new("narrow", 1, leaves::narrow),
        Leaf::new("loop_gains", 2, leaves::loop_gains),
        Leaf::new("phase_step_f32", 0, leaves::phase_step),
        Leaf::new("integrate", 0, leaves::integrate),
        Leaf::new("interp_f32_pair", 0, leaves::interp_pair),
        Leaf::new("derotate", 0, leaves::derotate),
        Leaf::new("rotate", 0, leaves::rotate),
        Leaf::new("octant_point", 0, leaves::octant_point),
        Leaf::new("decide_level", 0, leaves::decide_level),
        Leaf::new("decide_symbol", 0, leaves::decide_symbol),
        Leaf::new("decide", 0, leaves::decide),
        Leaf::new("cma_r2", 0, leaves::cma_r2),
        Leaf::new("dot_complex", 0, leaves::dot_complex),
        Leaf::new("calls", 0, calls::agrees),
        Leaf::new("others", 0, others::agrees),
    ];
    let mut total = Tally::default();
    for leaf in leaves {
        replay(&rt, &mut total, &leaf)?;
    }
    println!(rt; "total: {total}")
}
