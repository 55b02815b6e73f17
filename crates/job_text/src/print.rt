// The text of a job, written into a lent buffer. Each function gives the place after what it wrote.
#![tactic(auto, using(crate::proofs::Decimal::digit_counts))]

ghost use Rattle.std.specs.Prelude.{◌≡◌, cond, eqb, ◌++◌, ◌+◌, ◌*◌, ◌≤◌, length};
ghost use Rattle.job_text.specs.Text.{decimal, ok_word, flagged_word, refused_text, head_text, row_text, rows_text};
ghost use Rattle.job_text.specs.Written.{Wrote};

fn put(out: &mut [u8], at: usize, word: &[u8]) -> usize
    requires { at + length word.now ≤ length out.old }
    ensures { Wrote at word.now out.old result out.new }
{
    let end = at + word.len();
    out[at..end].copy_from_slice(word);
    end
}

// How many digits a number has in base ten. No index is counted: what is left of the number ends the loop.
fn digit_count(number: usize) -> usize
    ensures { result ≡ length (decimal number) }
{
    let mut rest = number;
    let mut count: usize = 1;
    while 10 <= rest {
        rest /= 10;
        count += 1;
    }
    count
}

// A number in base ten, of at most 20 digits, from its last digit to its first. No `write!`: it wants a writer of ours over the lent
// bytes, with the laws of `fmt::Write`, and this loop is shorter.
fn put_number(out: &mut [u8], at: usize, number: usize) -> usize
    requires { at + 20 ≤ length out.old }
    ensures { Wrote at (decimal number) out.old result out.new }
{
    let count = digit_count(number);
    let mut rest = number;
    for i in (0..count).rev() {
        out[at + i] = b'0' + (rest % 10) as u8;
        rest /= 10;
    }
    at + count
}

// A word, and then a number.
fn put_item(out: &mut [u8], at: usize, word: &[u8], number: usize) -> usize
    requires { at + length word.now + 20 ≤ length out.old }
    ensures { Wrote at (word.now ++ decimal number) out.old result out.new }
{
    let end = put(out, at, word);
    put_number(out, end, number)
}

// The line of a refusal.
pub fn put_refusal(out: &mut [u8], number: u8) -> usize
    requires { 40 ≤ length out.old }
    ensures { Wrote 0 (refused_text number) out.old result out.new }
{
    let end = put_item(out, 0, b"refused ", usize::from(number));
    put(out, end, b"\n")
}

// The first line.
pub fn put_head(out: &mut [u8], levels: usize, columns: usize, count: usize) -> usize
    requires { 100 ≤ length out.old }
    ensures { Wrote 0 (head_text levels columns count) out.old result out.new }
{
    let first = put_item(out, 0, b"levels ", levels);
    let second = put_item(out, first, b" columns ", columns);
    let third = put_item(out, second, b" lookups ", count);
    put(out, third, b"\n")
}

// The last word of a row's line.
fn flag_word(flag: u8) -> &'static [u8]
    ensures { result.now ≡ cond (eqb flag 0) ok_word flagged_word }
{
    if flag == 0 { b" ok\n" } else { b" flagged\n" }
}

// The line of a row.
fn put_row(out: &mut [u8], at: usize, row: usize, flag: u8) -> usize
    requires { at + 40 ≤ length out.old }
    ensures { Wrote at (row_text row flag) out.old result out.new }
{
    let end = put_item(out, at, b"row ", row);
    put(out, end, flag_word(flag))
}

// One line for each row.
pub fn put_rows(out: &mut [u8], at: usize, flags: &[u8]) -> usize
    requires { at + 40 * length flags.now ≤ length out.old }
    ensures { Wrote at (rows_text (length flags.now) flags.now) out.old result out.new }
{
    let mut end = at;
    for row in 0..flags.len() {
        end = put_row(out, end, row, flags[row]);
    }
    end
}
