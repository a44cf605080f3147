// The block (store-io's layout.rs): "Block is a power of two, 512 to 65,536", and what counts in blocks is a multiple of it. Every
// function is total, on the block 0 too.
#![tactic(auto)]

ghost use Rattle.std.specs.Prelude.{◌≡◌};
ghost use Rattle.layout.specs.Block.{is_block, on_block};

// The smallest block (the Rust has it as MIN_LOG2_BLOCK).
pub const MIN_BLOCK: u64 = 512;

// The largest block (MAX_LOG2_BLOCK).
pub const MAX_BLOCK: u64 = 65536;

// Whether n is a power of two from the smallest block to the largest (the sizes that Layout::block can give).
pub fn is_block(n: u64) -> bool
    ensures { result ≡ is_block n }
{
    match n {
        MIN_BLOCK | 1024 | 2048 | 4096 | 8192 | 16384 | 32768 | MAX_BLOCK => true,
        _ => false,
    }
}

// Whether x is a multiple of the block (u64::is_multiple_of); of the block 0 only 0 is.
#[tactic(auto, unfolding(crate::specs::Block::on_block))]
pub fn on_block(block: u64, x: u64) -> bool
    ensures { result ≡ on_block block x }
{
    x.is_multiple_of(block)
}
