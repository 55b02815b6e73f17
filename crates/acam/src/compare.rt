// The comparator: the match rule, the match byte of a row, and what its match line makes of it.
ghost use Rattle.std.specs.Prelude.{◌≡◌, map, ◌%◌, ◌≤◌, leb, ltb, length, take};
ghost use Rattle.acam.specs.Cell.{all_reached, compared_byte, line_byte, cell_match};
ghost use Rattle.parity.specs.Lists.{every};
ghost use Rattle.parity.specs.Match.{line_gives};

// The match rule, coded here and in `narrow` alone: a cell answers 1 to an input below q exactly when input ≤ cell.
pub fn answers(input: u8, cell: u8) -> bool
    ensures { result ≡ leb input cell }
{
    input <= cell
}

// No cell answers 1 to input q, which is asked here, once in a lookup: whether every input is below q, and so a byte; then the
// bytes are the inputs. All is of 16 bits, and no input ends the loop, so that it is compiled to vector code.
pub fn narrow(inputs: &[u16], levels: usize, bytes: &mut [u8]) -> bool
    requires levels_bound { levels ≤ 256 }
    requires inputs_len { length inputs.now ≡ length bytes.old }
    ensures below { result ≡ every (λ v. ltb v levels) inputs.now }
    ensures narrowed { bytes.new ≡ map (λ v. v % 256) inputs.now }
{
    let limit = levels as u16;
    let mut below = true;
    for j in 0..inputs.len() {
        let input = inputs[j];
        bytes[j] = (input % 256) as u8;
        below = below & (input < limit);
    }
    below
}

// Whether 16 cells all answer 1 to their inputs: no exit between them, so that they are compared at once.
fn answer_all(inputs: &[u8], cells: &[u8]) -> bool
    requires { (length inputs.now ≡ 16) × (length cells.now ≡ 16) }
    ensures { result ≡ all_reached inputs.now cells.now }
{
    let mut all = true;
    for j in 0..16 {
        all = all & answers(inputs[j], cells[j]);
    }
    all
}

// The match byte of a few cells, one by one.
fn match_each(inputs: &[u8], row: &[u8]) -> u8
    requires { length inputs.now ≤ length row.now }
    ensures { result ≡ compared_byte inputs.now (take (length inputs.now) row.now) }
{
    for j in 0..inputs.len() {
        if !answers(inputs[j], row[j]) {
            return 0;
        }
    }
    1
}

// 1 where every cell answers 1 to its input, else 0. Cells beyond the inputs are fed 0 and always answer 1. Sixteen cells are
// compared at a time, from the first on, and at the end the last sixteen, so that a few may be compared twice.
pub fn match_byte(inputs: &[u8], row: &[u8]) -> u8
    requires { length inputs.now ≤ length row.now }
    ensures { result ≡ compared_byte inputs.now (take (length inputs.now) row.now) }
{
    if inputs.len() < 16 {
        return match_each(inputs, row);
    }
    for i in 0..(inputs.len() - 1) / 16 {
        let start = i * 16;
        let end = start + 16;
        if !answer_all(&inputs[start..end], &row[start..end]) {
            return 0;
        }
    }
    let last = inputs.len() - 16;
    u8::from(answer_all(&inputs[last..], &row[last..inputs.len()]))
}

// What a row's match line gives, where its cells say this: a sound line, 0, what they say, a shorted one, 2, always 1, and any
// other, which is dead, 0. Two choices and a sum, of which one at most is not 0, and no early return, so that a loop over the rows
// that calls it is compiled to short vector code.
#[tactic(auto, unfolding(parity::specs::Match::line_gives))]
pub fn line_gives(line: u8, said: u8) -> u8
    ensures { result ≡ line_gives line said }
{
    let sound: u8 = if line == 0 { said } else { 0 };
    let shorted: u8 = if line == 2 { 1 } else { 0 };
    sound + shorted
}

// The byte that a row's match line gives, by inputs that are all below q or not: the cells are looked at only where they can
// tell, at a sound line with such inputs.
#[tactic(auto, unfolding(parity::specs::Match::line_gives))]
pub fn line_match(line: u8, below: bool, inputs: &[u8], row: &[u8]) -> u8
    requires { length inputs.now ≤ length row.now }
    ensures { result ≡ line_byte line below inputs.now (take (length inputs.now) row.now) }
{
    if line != 0 {
        return line_gives(line, 0);
    }
    if !below {
        return 0;
    }
    match_byte(inputs, row)
}

// The byte that a row's match line gives where one cell alone is fed, with an input below q, by that cell.
pub fn cell_match(line: u8, input: u8, cell: u8) -> u8
    ensures { result ≡ cell_match line input cell }
{
    let said: u8 = if answers(input, cell) { 1 } else { 0 };
    line_gives(line, said)
}
