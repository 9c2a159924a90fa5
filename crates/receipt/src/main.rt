// Checks the dossier on standard input and prints the receipt.
#![tactic(auto)]

ghost use Rattle.std.specs.Prelude.{◌≡◌};
ghost use Rattle.codec.specs.Held.{meaning_of};
ghost use Rattle.receipt.specs.Receipt.{within_limit, receipt_of};

use checking::calls::check_all;
use codec::holder::ByteDossier;
use course::receipt::Receipt;
use std::io;
use std::io::Read;

// A longer input counts as having no head.
const LIMIT: usize = 65_536;

// The bytes that are taken for a dossier: none of them where there are too many.
fn within_limit(bytes: &[u8]) -> &[u8]
    ensures { result.now ≡ within_limit bytes.now }
{
    if bytes.len() <= LIMIT { bytes } else { &[] }
}

// All units of the dossier in these bytes are taken, up to a finding.
fn receipt_of(bytes: &[u8]) -> Receipt
    ensures { result ≡ receipt_of (meaning_of (within_limit bytes.now)) }
{
    check_all(ByteDossier::new(within_limit(bytes))).receipt()
}

fn main(rt: HostRuntime) -> io::Result<()> {
    let mut bytes = Vec::new(rt.alloc());
    rt.stdin().take(LIMIT as u64 + 1).read_to_end(&mut bytes)?;
    let receipt = receipt_of(&bytes);
    print!(rt; "{receipt}")
}
