// The version and the function as labels.
ghost use Rattle.std.specs.Prelude.{◌≡◌, ◌++◌, OnOk};
ghost use Rattle.admin_replies.specs.MetricsText.{label_text, build_begin, info_begin, kit_text, state_text, build_text, settings_text, info_text};

use port_meters::Version;
use retry_rules::Settings;
use std::alloc::AllocError;

const BUILD: &[u8] =
    b"# HELP lambda_broker_build_info The version of the program.\n# TYPE lambda_broker_build_info gauge\nlambda_broker_build_info{";

const BEGIN: &[u8] =
    b"} 1\n# HELP lambda_broker_settings_info The function.\n# TYPE lambda_broker_settings_info gauge\nlambda_broker_settings_info{";

#[tactic(auto, unfolding(crate::specs::MetricsText::build_begin))]
fn build() -> &'static [u8]
    ensures { result.now ≡ build_begin }
{
    BUILD
}

#[tactic(auto, unfolding(crate::specs::MetricsText::info_begin))]
fn begin() -> &'static [u8]
    ensures { result.now ≡ info_begin }
{
    BEGIN
}

// With which kit it was built, nothing where that is not known.
fn kit_of(version: &Version) -> &str
    ensures { result.now ≡ kit_text version.now }
{
    match &version.kit {
        Some(kit) => kit.as_str(),
        None => "",
    }
}

fn state_of(is_proved: bool) -> &'static str
    ensures { result.now ≡ state_text is_proved }
{
    if is_proved { "proved" } else { "unproved" }
}

#[tactic(auto, unfolding(crate::specs::MetricsText::label_text))]
fn put_label(out: &mut Vec<u8>, name: &[u8], value: &[u8]) -> Result<(), AllocError>
    ensures { OnOk result (out.new.items ≡ out.old.items ++ label_text name.now value.now) }
{
    out.extend_from_slice(name)?;
    out.extend_from_slice(b"=\"")?;
    out.extend_from_slice(value)?;
    out.extend_from_slice(b"\",")
}

#[tactic(auto, unfolding(crate::specs::MetricsText::build_text))]
fn put_build(out: &mut Vec<u8>, version: &Version) -> Result<(), AllocError>
    ensures { OnOk result (out.new.items ≡ out.old.items ++ build_text version.now) }
{
    out.extend_from_slice(build())?;
    put_label(out, b"version", version.text.as_bytes())?;
    put_label(out, b"kit", kit_of(version).as_bytes())?;
    put_label(out, b"state", state_of(version.is_proved).as_bytes())
}

#[tactic(auto, unfolding(crate::specs::MetricsText::settings_text))]
fn put_settings(out: &mut Vec<u8>, settings: &Settings) -> Result<(), AllocError>
    ensures { OnOk result (out.new.items ≡ out.old.items ++ settings_text settings.now) }
{
    out.extend_from_slice(begin())?;
    put_label(out, b"function", settings.name.as_bytes())?;
    put_label(out, b"arn", settings.arn.as_bytes())?;
    put_label(out, b"handler", settings.handler.as_bytes())?;
    out.extend_from_slice(b"} 1\n")
}

/// Puts the version and the function behind a text.
#[tactic(auto, unfolding(crate::specs::MetricsText::info_text))]
pub(crate) fn put_info(
    out: &mut Vec<u8>,
    version: &Version,
    settings: &Settings,
) -> Result<(), AllocError>
    ensures { OnOk result (out.new.items ≡ out.old.items ++ info_text version.now settings.now) }
{
    put_build(out, version)?;
    put_settings(out, settings)
}
