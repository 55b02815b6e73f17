// Blocks of 64 rows, the last of which may be short.
ghost use Rattle.std.specs.Prelude.{◌≡◌, ◌≤◌};
ghost use Rattle.array_memory.specs.Blocks.{blocks_of, block_end};

// The rows of a block.
pub const BLOCK: usize = 64;

// How many blocks the rows have; any number of rows, since it is asked before a shape's rows are known to be few.
pub fn block_count(rows: usize) -> usize
    ensures { result ≡ blocks_of rows }
{
    rows / BLOCK + (rows % BLOCK + BLOCK - 1) / BLOCK
}

// The end of the block that starts at a row: a block further on, or the end of the rows.
pub fn block_end(start: usize, rows: usize) -> usize
    requires { start ≤ rows }
    ensures { result ≡ block_end start rows }
{
    if rows - start < BLOCK {
        return rows;
    }
    start + BLOCK
}
