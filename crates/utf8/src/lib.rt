#![tactic(auto)]

ghost use Rattle.std.specs.Prelude.{◌≡◌, Some, cond, ◌+◌, ◌≤◌, ◌<◌, length, drop, get_or};
ghost use Rattle.utf8.specs.Utf8.{within, tail, char, rows, utf8};
ghost use Rattle.utf8.specs.First.{lead, lead_of};
ghost use Rattle.utf8.specs.Ascii.{ascii, Passed};

// What the first octet of a character decides: how many octets the character has, and the bounds of the second octet,
// where there is one.
#[derive(Clone, Copy)]
pub struct Lead {
    pub width: usize,
    pub low: u8,
    pub high: u8,
}

impl Lead {
    fn new(width: usize, low: u8, high: u8) -> Lead
        ensures { result ≡ lead width low high }
    {
        Lead { width, low, high }
    }
}

// The table of RFC 3629, section 4: a test for the last first octet of each row; None where no character starts so. By
// a `match` the width comes out of a table in memory, for which the next index waits: text takes up to twice as long.
#[tactic(auto, unfolding(crate::specs::First::lead_in))]
fn lead_of(x: u8) -> Option<Lead>
    ensures { result ≡ lead_of x }
{
    if x <= 127 {
        return Some(Lead::new(1, 0, 0));
    }
    if x <= 193 {
        return None;
    }
    if x <= 223 {
        return Some(Lead::new(2, 128, 191));
    }
    if x <= 224 {
        return Some(Lead::new(3, 160, 191));
    }
    if x <= 236 {
        return Some(Lead::new(3, 128, 191));
    }
    if x <= 237 {
        return Some(Lead::new(3, 128, 159));
    }
    if x <= 239 {
        return Some(Lead::new(3, 128, 191));
    }
    if x <= 240 {
        return Some(Lead::new(4, 144, 191));
    }
    if x <= 243 {
        return Some(Lead::new(4, 128, 191));
    }
    if x <= 244 {
        return Some(Lead::new(4, 128, 143));
    }
    None
}

// Is it in the range of UTF8-tail?
#[tactic(auto, using(crate::proofs::FirstLaws::tail_to, crate::proofs::FirstLaws::tail_above))]
fn is_tail(x: u8) -> bool
    ensures { result ≡ within tail x }
{
    128 <= x && x <= 191
}

// Can the octets after i follow the one at i, of which d tells? A bool and not the width: the next index
// then waits for the first octet alone, and not for the test of the others.
#[tactic(auto, using(crate::proofs::Laws::char_alone, crate::proofs::Laws::char_cut, crate::proofs::Laws::second_low, crate::proofs::Laws::second_high, crate::proofs::Laws::char_two, crate::proofs::Laws::char_three, crate::proofs::Laws::char_four, crate::proofs::Laws::third_no))]
fn is_followed(s: &[u8], i: usize, d: Lead) -> bool
    requires { (i < length s.now) × (Some d ≡ lead_of (get_or s.now i 0)) }
    ensures { cond result d.width 0 ≡ char rows (get_or s.now i 0) (drop (i + 1) s.now) }
{
    let n = d.width;
    if n <= 1 {
        return true;
    }
    if s.len() - i < n {
        return false;
    }
    let second = s[i + 1];
    if second < d.low || d.high < second {
        return false;
    }
    if n <= 2 {
        return true;
    }
    is_tail(s[i + 2]) && (n <= 3 || is_tail(s[i + 3]))
}

// Are the 32 octets from i on all below 128? They are joined first and tested once, which compiles to vectors.
#[tactic(auto, using(crate::proofs::Laws::joined_more, crate::proofs::Laws::joined_all))]
fn is_ascii_block(s: &[u8], i: usize) -> bool
    requires { i + 32 ≤ length s.now }
    ensures { result ≡ ascii 32 s.now i }
{
    let mut joint: u8 = 0;
    for k in 0..32 {
        joint |= s[i + k];
    }
    joint <= 127
}

// Over blocks of octets below 128: the index behind them.
#[tactic(auto, using(crate::proofs::Laws::pass_block))]
fn past_blocks(s: &[u8], from: usize) -> usize
    requires { from ≤ length s.now }
    ensures { Passed s.now from result }
{
    let mut i = from;
    while 32 <= s.len() - i && is_ascii_block(s, i) {
        i += 32;
    }
    i
}

// Over octets below 128: the index behind them.
#[tactic(auto, using(crate::proofs::Laws::pass_one))]
fn past_ascii(s: &[u8], from: usize) -> usize
    requires { from ≤ length s.now }
    ensures { Passed s.now from result }
{
    for i in past_blocks(s, from)..s.len() {
        if 127 < s[i] {
            return i;
        }
    }
    s.len()
}

// Is the text UTF-8?
#[tactic(auto, using(crate::proofs::Laws::pass_run, crate::proofs::Laws::pass_char, crate::proofs::Laws::char_inside, crate::proofs::Laws::pass_none_starts, crate::proofs::Laws::pass_not_followed, crate::proofs::Laws::pass_true, crate::proofs::FirstLaws::width_most))]
pub fn is_utf8(s: &[u8]) -> bool
    ensures { result ≡ utf8 s.now }
{
    let mut i: usize = 0;
    while i < s.len() {
        if s[i] <= 127 {
            i = past_ascii(s, i + 1);
        } else {
            let Some(d) = lead_of(s[i]) else {
                return false;
            };
            if !is_followed(s, i, d) {
                return false;
            }
            i += d.width;
        }
    }
    true
}
