// The lines of a split.
ghost use Rattle.std.specs.Prelude.{◌≡◌, ◌+◌, ◌*◌, ◌^◌, ◌≤◌, ◌<◌, length};
ghost use Rattle.std.specs.Int.Signed.{mag};
ghost use Rattle.octets.specs.Lists.{at, over};
ghost use Rattle.transaction.specs.Transaction.{meters};
ghost use Rattle.heat.specs.Uses.{use_in};
ghost use Rattle.heat.specs.Shares.{house};
ghost use Rattle.heat.specs.Text.{line_max, line, line_by, lines_in, text_max, text_in};

use super::LINE_MAX;
use super::numerals::Line;
use super::shares::Shares;
use super::uses::Uses;
use transaction::METERS;

const COMMA: u8 = b',';

pub(crate) const NEWLINE: u8 = b'\n';

const HEADING: &[u8; HEADING_LEN] = b"meter,used,share\n";

const HEADING_LEN: usize = 17;
// The longest text.
pub const TEXT_MAX: usize = HEADING_LEN + LINE_MAX * METERS;

// The line of a meter, what it used, and its share.
fn line_of(m: u64, used: i64, share: u64) -> Line
    requires { (m < meters) × (mag used < 2 ^ 32) × (share ≤ house) }
    ensures { result ≡ line m used share }
{
    let mut l = Line::new();
    l.byte_before(NEWLINE);
    l.digits_before(share);
    l.byte_before(COMMA);
    l.signed_before(used);
    l.byte_before(COMMA);
    l.digits_before(m);
    l
}

// Puts the line of a meter, where it has one, over the start of out, and answers how long it is. Uses and shares are lent side by
// side, here and below: a struct of the two would be made for these three functions alone and say nothing of them.
fn put_line(uses: &Uses, shares: &Shares, m: usize, out: &mut [u8]) -> usize
    requires { m < meters }
    ensures len { (result ≡ length (line_by m (use_in uses.now.each m) (at shares.now.each m))) × (result ≤ line_max) }
    ensures bytes { out.new ≡ over (line_by m (use_in uses.now.each m) (at shares.now.each m)) out.old }
{
    let Some(used) = uses.each[m] else {
        return 0;
    };
    let l = line_of(m as u64, used, shares.each[m]);
    let text = l.as_slice();
    octets::copy(text, out);
    text.len()
}

// Puts the lines of all meters that have one over the start of out, and answers how long they are.
fn put_lines(uses: &Uses, shares: &Shares, out: &mut [u8]) -> usize
    requires { line_max * meters ≤ length out.old }
    ensures len { (result ≡ length (lines_in uses.now.each shares.now.each meters)) × (result ≤ line_max * meters) }
    ensures bytes { out.new ≡ over (lines_in uses.now.each shares.now.each meters) out.old }
{
    let mut at = 0;
    for m in 0..METERS {
        at += put_line(uses, shares, m, &mut out[at..]);
    }
    at
}

// Puts the text over the start of out, and answers how long it is.
pub(crate) fn put_split(uses: &Uses, shares: &Shares, out: &mut [u8; TEXT_MAX]) -> usize
    ensures len { (result ≡ length (text_in uses.now.each shares.now.each)) × (result ≤ text_max) }
    ensures bytes { out.new ≡ over (text_in uses.now.each shares.now.each) out.old }
{
    octets::copy(HEADING, out);
    HEADING_LEN + put_lines(uses, shares, &mut out[HEADING_LEN..])
}
