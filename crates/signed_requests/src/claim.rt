// What a head claims.
ghost use Rattle.std.specs.Prelude.{◌<◌, ◌^◌};

/// The access key and scope of a credential.
#[derive(Clone, Copy)]
pub(crate) struct Scope<'a> {
    pub(crate) key: &'a [u8],
    pub(crate) day: &'a [u8],
    pub(crate) region: &'a [u8],
}

/// What `Authorization` claims.
#[derive(Clone, Copy)]
pub(crate) struct Claim<'a> {
    pub(crate) scope: Scope<'a>,
    pub(crate) names: &'a [u8],
    pub(crate) signature: &'a [u8],
}

/// What is claimed, with the moment of it.
#[derive(Clone, Copy)]
pub(crate) struct Signed<'a> {
    pub(crate) claim: Claim<'a>,
    pub(crate) stamp: &'a [u8],
    pub(crate) seconds: u64,
    ghost few: { seconds < 2 ^ 41 },
}
