// The names of a query.
ghost use Rattle.std.specs.Prelude.{◌≡◌};
ghost use Rattle.admin_replies.specs.Requests.{text_of};

/// A name under which a query gives a value.
#[derive(Clone, Copy)]
pub(crate) enum Name {
    Standing,
    After,
    Limit,
    Deep,
}

impl Name {
    /// As a query writes it.
    pub(crate) fn text(self) -> &'static str
        ensures { result.now ≡ text_of self }
    {
        match self {
            Name::Standing => "standing",
            Name::After => "after",
            Name::Limit => "limit",
            Name::Deep => "deep",
        }
    }
}
