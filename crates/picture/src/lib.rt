// A file of limits judged, as text for people: from the bytes of the file to the bytes of the text (request 2026-11).
#![tactic(auto)]

ghost use Rattle.std.specs.Prelude.{◌≡◌, true, ◌++◌, ◌≤◌, length, drop};
ghost use Rattle.spec.specs.Rule.{form32};
ghost use Rattle.print.specs.Written.{Added};
ghost use Rattle.picture.specs.File.{is_whole, lows_in, highs_in};
ghost use Rattle.picture.specs.Picture.{limits_text, file_text, picture_of};

use crate::file::{is_whole, load_limits};
use crate::lines::put_lines;
use limits::judge;
use print::{add_bytes, add_refused};
use reasons::put_registers;
use rule::check_rule;
use words::counted::load_counted;
use words::word_at;

mod file;
mod lines;

// A rule judged on limits, at the start of the output.
fn put_limits(rule: &[u32], lows: &[u16], highs: &[u16], out: &mut [u8]) -> usize
    requires { (length lows.now ≤ 16000) × (74013 ≤ length out.old) }
    ensures { Added (limits_text form32 rule.now lows.now highs.now) 0 result out.old out.new }
{
    let mut answers = [0u8; 1000];
    match judge(rule, lows, highs, &mut answers) {
        Err(refusal) => add_refused(u32::from(refusal.question), refusal.place, 0, out),
        Ok(n) => {
            let mut sets = [0u64; 1000];
            put_registers(rule, lows, highs, &mut sets);
            put_lines(&answers[..n], &sets, out)
        }
    }
}

// A rule judged on the limits that stand after the index count, word `at`.
fn put_indices(rule: &[u32], bytes: &[u8], at: usize, out: &mut [u8]) -> usize
    requires { (at ≤ 100) × (is_whole bytes.now at ≡ true) × (74013 ≤ length out.old) }
    ensures { Added (limits_text form32 rule.now (lows_in bytes.now at) (highs_in bytes.now at)) 0 result out.old out.new }
{
    let count = word_at(bytes, at) as usize;
    let start = 4 * at + 4;
    let mut lows = [0u16; 16000];
    load_limits(bytes, start, 0, count, &mut lows);
    let mut highs = [0u16; 16000];
    load_limits(bytes, start, 16, count, &mut highs);
    let n = 16 * count;
    put_limits(rule, &lows[..n], &highs[..n], out)
}

// What follows the rule: its index count is word `at`.
fn put_file(rule: &[u32], bytes: &[u8], at: usize, out: &mut [u8]) -> usize
    requires { (at ≤ 100) × (74013 ≤ length out.old) }
    ensures { Added (file_text rule.now bytes.now at) 0 result out.old out.new }
{
    if let Err(refusal) = check_rule(rule) {
        return add_refused(u32::from(refusal.question), refusal.place, 0, out);
    }
    if !is_whole(bytes, at) {
        return add_bytes(
            b"a file has at most 1000 indices here, and 64 bytes for each\n",
            0,
            out,
        );
    }
    put_indices(rule, bytes, at, out)
}

// What is printed for the bytes of a file, at the start of the output; later bytes stay. Hands back its length.
pub fn judge_file(bytes: &[u8], out: &mut [u8; 74013]) -> usize
    ensures { (result ≡ length (picture_of bytes.now))
        × (out.new ≡ picture_of bytes.now ++ drop result out.old) }
{
    let mut rule = [0u32; 32];
    let nodes = load_counted(bytes, 0, &mut rule);
    put_file(&rule[..nodes], bytes, nodes + 1, out)
}
