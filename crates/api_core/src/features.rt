// Which features an extension accepts.
ghost use Rattle.std.specs.Prelude.{◌≡◌, IfOk};
ghost use Rattle.std.specs.List.{list_any};
ghost use Rattle.api_core.specs.Dialect.{between_commas, is_account_feature, has_account_feature, accepts_account};
ghost use Rattle.api_core.specs.Steps.{texts};

use crate::Dialect;
use std::alloc::{AllocError, Global};
use std::str;

fn is_account(feature: &str) -> bool
    ensures { result ≡ is_account_feature feature.now }
{
    feature.trim() == "accountId"
}

fn any_account(features: &[&str]) -> bool
    ensures { result ≡ list_any is_account_feature (texts features.now) }
{
    match features {
        [] => false,
        [feature, more @ ..] => is_account(feature) || any_account(more),
    }
}

fn between_commas(alloc: Global, features: &str) -> Result<Vec<&str>, AllocError>
    ensures { IfOk result (λ parts. texts parts.items ≡ between_commas features.now) }
{
    features.split(',').collect(alloc)
}

#[tactic(auto, unfolding(crate::specs::Dialect::has_account_feature))]
fn has_account(alloc: Global, features: &[u8]) -> Result<bool, AllocError>
    ensures { IfOk result (λ answer. answer ≡ has_account_feature features.now) }
{
    match str::from_utf8(features) {
        Ok(text) => Ok(any_account(&between_commas(alloc, text)?)),
        Err(_) => Ok(false),
    }
}

/// Whether an extension is told the account, by the value of the header in which it says what it accepts.
///
/// Extensions API, Register: `Lambda-Extension-Accept-Feature: accountId`.
pub(crate) fn accepts_account(
    alloc: Global,
    dialect: Dialect,
    features: &[u8],
) -> Result<bool, AllocError>
    ensures { IfOk result (λ answer. answer ≡ accepts_account dialect features.now) }
{
    match dialect {
        Dialect::Profile => Ok(false),
        Dialect::Aws => has_account(alloc, features),
    }
}
