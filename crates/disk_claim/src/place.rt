// Where the claim of a disk stands.
ghost use Rattle.std.specs.Prelude.{◌≡◌, ◌<◌, IfSome};
ghost use Rattle.disk_claim.specs.Place.{claim_sector};

/// The sector behind both segments of a disk of so many sectors, where it begins a page of 4096 bytes. None where it does not: a page
/// is written as a whole, so that a late write to a segment might bring an old claim back.
pub fn claim_sector(sectors: u64) -> Option<u64>
    // claim: The claim stands behind both segments and begins a page: on a disk of 8 n + 1 sectors alone. [: exact]
    ensures exact { result ≡ claim_sector sectors }
    ensures inside { IfSome result (λ sector. sector < sectors) }
{
    if sectors % 8 == 1 {
        Some(sectors - 1)
    } else {
        None
    }
}
