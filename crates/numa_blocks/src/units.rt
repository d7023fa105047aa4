//! Numbers of pages by the pages of a block.
ghost use Rattle.std.specs.Prelude.{◌≡◌, ◌*◌, ◌/◌, ◌^◌, ◌≤◌, ◌<◌, ℕ};

/// The pages of a block.
pub(crate) fn unit(order: u32) -> u64
    requires { order ≤ 9 }
    ensures unit { result ≡ 2 ^ order }
    ensures some { 0 < result }
    ensures most { result ≤ 512 }
{
    match order {
        0 => 1,
        1 => 2,
        2 => 4,
        3 => 8,
        4 => 16,
        5 => 32,
        6 => 64,
        7 => 128,
        8 => 256,
        _ => 512,
    }
}

/// How many whole blocks so many pages have.
pub(crate) fn blocks(pages: u64, order: u32) -> u64
    requires { order ≤ 9 }
    ensures blocks { result ≡ pages / 2 ^ order }
    ensures fewer { result ≤ pages }
{
    match order {
        0 => pages,
        1 => pages / 2,
        2 => pages / 4,
        3 => pages / 8,
        4 => pages / 16,
        5 => pages / 32,
        6 => pages / 64,
        7 => pages / 128,
        8 => pages / 256,
        _ => pages / 512,
    }
}

/// The first page of the block of a page.
pub(crate) fn block_of(page: u64, order: u32) -> u64
    requires { order ≤ 9 }
    ensures block { result ≡ page / 2 ^ order * 2 ^ order }
    ensures before { result ≤ page }
{
    match order {
        0 => page,
        1 => page / 2 * 2,
        2 => page / 4 * 4,
        3 => page / 8 * 8,
        4 => page / 16 * 16,
        5 => page / 32 * 32,
        6 => page / 64 * 64,
        7 => page / 128 * 128,
        8 => page / 256 * 256,
        _ => page / 512 * 512,
    }
}
