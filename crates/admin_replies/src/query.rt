// What a query gives.
ghost use Rattle.std.specs.Prelude.{◌≡◌, count_by, find};
ghost use Rattle.std.specs.List.{list_all, list_any};
ghost use Rattle.std.specs.Option.{option_copied};
ghost use Rattle.admin_replies.specs.Requests.{name_in, value_in, is_named, is_understood, is_given_once_at_most, fits, given, parts_of};

use crate::name::Name;

fn name_in(part: &str) -> &str
    ensures { result.now ≡ name_in part.now }
{
    match part.split_once('=') {
        Some((name, _)) => name,
        None => part,
    }
}

fn value_in(part: &str) -> &str
    ensures { result.now ≡ value_in part.now }
{
    match part.split_once('=') {
        Some((_, value)) => value,
        None => "",
    }
}

fn is_named(name: Name, part: &str) -> bool
    ensures { result ≡ is_named name part.now }
{
    name_in(part) == name.text()
}

fn is_understood(names: &[Name], part: &str) -> bool
    ensures { result ≡ is_understood names.now part.now }
{
    part.is_empty() || names.iter().any(|name| is_named(*name, part))
}

fn all_understood(names: &[Name], query: &str) -> bool
    ensures { result ≡ list_all (is_understood names.now) (parts_of query.now) }
{
    query.split('&').all(|part| is_understood(names, part))
}

fn count_of(query: &str, name: Name) -> usize
    ensures { result ≡ count_by (is_named name) (parts_of query.now) }
{
    query.split('&').filter(|part| is_named(name, part)).count()
}

fn none_twice(names: &[Name], query: &str) -> bool
    ensures { result ≡ list_all (is_given_once_at_most (parts_of query.now)) names.now }
{
    names.iter().all(|name| count_of(query, *name) <= 1)
}

/// Whether each part of a query gives one of these, and none twice.
#[tactic(auto, unfolding(crate::specs::Requests::fits))]
pub(crate) fn fits(names: &[Name], query: &str) -> bool
    ensures { result ≡ fits names.now (parts_of query.now) }
{
    all_understood(names, query) && none_twice(names, query)
}

fn part_named(name: Name, query: &str) -> Option<&str>
    ensures { option_copied result ≡ find (is_named name) (parts_of query.now) }
{
    query.split('&').find(|part| is_named(name, part))
}

/// What is given under a name.
#[tactic(auto, unfolding(crate::specs::Requests::given))]
pub(crate) fn given(name: Name, query: &str) -> Option<&str>
    ensures { option_copied result ≡ given name (parts_of query.now) }
{
    match part_named(name, query) {
        Some(part) => Some(value_in(part)),
        None => None,
    }
}
