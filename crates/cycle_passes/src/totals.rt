// The pass of a step over the blocks of rows: their totals.
ghost use Rattle.std.specs.Prelude.{◌≡◌, ◌≤◌, length};
ghost use Rattle.array_memory.specs.Blocks.{blocks_of, count_flagged, block_totals};

use array_memory::blocks::block_end;

// How many of the rows of a block are flagged.
fn count_flags(block: &[u8]) -> u8
    requires { length block.now ≤ 64 }
    ensures { result ≡ count_flagged block.now }
{
    let mut count: u8 = 0;
    for &flag in block {
        if flag != 0 {
            count += 1;
        }
    }
    count
}

// Counts each block's flagged rows anew.
pub fn total_blocks(flags: &[u8], totals: &mut [u8])
    requires { length totals.old ≡ blocks_of (length flags.now) }
    ensures { totals.new ≡ block_totals flags.now }
{
    let mut start: usize = 0;
    for total in totals.iter_mut() {
        let end = block_end(start, flags.len());
        *total = count_flags(&flags[start..end]);
        start = end;
    }
}
