// A custom order: numbers as keys, by their value. `docs/ORDERS.md` explains it line by line.

ghost use Rattle.std.specs.Prelude.{codes, length};
ghost use Rattle.std.proofs.Common.{lit<};
ghost use Rattle.std.specs.Ordering.{nat_cmp, on, then_cmp};
ghost use Rattle.std.specs.Cmp.{nat_cmp_total, on_total, then_total};
ghost use Rattle.std.specs.Cmp.Lexicographic.{slice_cmp, nat_list_cmp_total};
ghost use Rattle.own_order.specs.ShorterFirst.{shorter_first_exact};

use ikey::KeyOrder;
use std::cmp::Ordering;

/// Orders the shorter key first; of one length the first byte that differs decides. So numbers
/// without a zero in front, in decimal as in big-endian bytes, come by their value.
pub struct ShorterFirst;

impl KeyOrder for ShorterFirst {
    ghost name = { codes "example.ShorterFirst" };

    ghost cmp = { then_cmp (on length nat_cmp) (slice_cmp nat_cmp) };

    fn name() -> &'static str {
        "example.ShorterFirst"
    }

    fn compare(a: &[u8], b: &[u8]) -> Ordering {
        match a.len().cmp(&b.len()) {
            Ordering::Less => Ordering::Less,
            Ordering::Equal => a.cmp(b),
            Ordering::Greater => Ordering::Greater,
        }
    }

    ghost total = { then_total (on_total length nat_cmp_total) nat_list_cmp_total };

    ghost exact = { shorter_first_exact };

    ghost name_fits = { lit< tt };
}
