// What the masks of an order leave of a row, for inner use: what they are given is within limits already.

#![tactic(auto)]

ghost use Rattle.std.specs.Prelude.{◌≡◌, ◌*◌, ◌≤◌};
ghost use Rattle.masks.specs.Masks.{mask_byte, KeptBlock, kept_row};
ghost use Rattle.blocks.specs.Row.{width, block, ZeroFrom};

use blocks::{BLOCK, WIDTH};

// 255 where a power has, of the bits asked for, just those of the order, else 0.
fn mask(e: u8, asked: u8, order: u8) -> u8
    ensures { result ≡ mask_byte e asked order }
{
    if e & asked == order { 255 } else { 0 }
}

// What the masks of the powers leave of a block.
fn kept_block(a: &[u8; BLOCK], es: &[u8; BLOCK], asked: u8, order: u8) -> [u8; BLOCK]
    ensures { KeptBlock a.now es.now asked order result }
{
    let mut part = [0u8; BLOCK];
    for k in 0..BLOCK {
        part[k] = a[k] & mask(es[k], asked, order);
    }
    part
}

// What they leave of the first blocks of a row, to the front of another.
pub fn keep(
    row: &[u8; WIDTH],
    es: &[u8; WIDTH],
    asked: u8,
    order: u8,
    blocks: usize,
    out: &mut [u8; WIDTH],
)
    requires { (blocks * block ≤ width) × ZeroFrom (blocks * block) out.old }
    ensures { out.new ≡ kept_row blocks row.now es.now asked order }
{
    for p in 0..blocks {
        let at = p * BLOCK;
        let a = blocks::block(row, at);
        let powers = blocks::block(es, at);
        let left = kept_block(&a, &powers, asked, order);
        blocks::put(out, at, &left);
    }
}
