// The parts of a line, each appended to what stands before it.
ghost use Rattle.std.specs.Prelude.{◌≡◌, ◌+◌, ◌++◌, ◌≤◌, List, ℕ, length};
ghost use Rattle.fractions.specs.Pairs.{Inside};
ghost use Rattle.listing.specs.Lines.{line_size};
ghost use Rattle.listing.specs.Pieces.{registered, Way, Rest};

use crate::LINE;
use arrayvec::ArrayString;
use fractions::Fraction;
use itoa::Buffer;
use registers::ValidRegister;

// The steps that a walk may take.
const ALLOWANCE: u32 = 65536;

// p, q, the number of cells and the memory.
fn registered(out: &mut ArrayString<LINE>, p: i32, v: ValidRegister)
    requires { length out.old.bytes + 46 ≤ line_size }
    ensures text { out.new.bytes ≡ out.old.bytes ++ registered p v.register.q v.register.memory }
    ensures short { length out.new.bytes ≤ length out.old.bytes + 46 }
{
    phrases::field(out, p);
    phrases::field(out, v.register.q);
    phrases::field(out, storage::sheet_of(v).cells);
    phrases::field(out, v.register.memory);
}

// Lead-in, period and the line end; "-" for both where the walk is past its allowance.
fn way(out: &mut ArrayString<LINE>, v: ValidRegister)
    requires { length out.old.bytes + 22 ≤ line_size }
    ensures { (text : List ℕ) × Way v.register text × (out.new.bytes ≡ out.old.bytes ++ text) }
{
    match walking::walk(v.register, ALLOWANCE) {
        Ok(walk) => {
            phrases::field(out, walk.lead_in);
            out.push_str(Buffer::new().format(walk.period));
            out.push('\n');
        }
        Err(walking::Refusal::Past) => out.push_str("- -\n"),
        // a valid register is not refused
        Err(walking::Refusal::Invalid) => {}
    }
}

// What follows the count: the pair, its register and its walk.
pub fn rest(out: &mut ArrayString<LINE>, pair: Fraction)
    requires { (length out.old.bytes + 68 ≤ line_size) × Inside pair.p pair.q }
    ensures { (text : List ℕ) × Rest pair.p pair.q text × (out.new.bytes ≡ out.old.bytes ++ text) }
{
    match registers::load(pair) {
        Ok(register) => {
            let v = ValidRegister { register };
            registered(out, pair.p, v);
            way(out, v);
        }
        // a pair inside the limits is not refused, and its memory never too wide
        Err(_) => {}
    }
}
