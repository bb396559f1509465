// Writing settings.
ghost use Rattle.std.specs.Prelude.{◌≡◌, ◌<◌, None, IfOk, IfErr, OnOk, length};
ghost use Rattle.retry_rules.specs.Settings.{bad_field};
ghost use Rattle.invoke_records.specs.Spelling.{short_text, limits_text, settings_text, settings_fault};
ghost use Rattle.invoke_records.specs.Reading.{sound, FailsBy};
ghost use Rattle.invoke_records.specs.Steps.{Adds};

use crate::RecordError;
use crate::writer::Writer;
use retry_rules::{Field, Settings};
use std::alloc::Global;

fn check(s: &Settings) -> Result<(), RecordError>
    ensures fault { result ≡ sound (settings_fault s.now) tt }
    ensures good { OnOk result (bad_field s.now ≡ None) }
{
    let Err(bad) = s.check() else {
        return Ok(());
    };
    let is_too_long = match bad.field {
        Field::Name => s.name.as_bytes().len() > 64,
        Field::Handler => s.handler.as_bytes().len() > 128,
        Field::Arn => s.arn.as_bytes().len() > 200,
        _ => false,
    };
    if is_too_long {
        return Err(RecordError::TooLong);
    }
    Err(RecordError::BadKind)
}

fn add_limits(out: &mut Writer, s: &Settings)
    ensures { Adds (limits_text s.now) out.old out.new }
{
    out.add(&[s.retries]);
    out.add(&s.age.to_be_bytes());
    out.add(&s.timeout.to_be_bytes());
    out.add(&[s.concurrency, s.environments]);
    out.add(&s.events.to_be_bytes());
    out.add(&s.payload.to_be_bytes());
    out.add(&s.response.to_be_bytes());
}

fn add_text(out: &mut Writer, text: &[u8])
    requires { length text.now < 256 }
    ensures { Adds (short_text text.now) out.old out.new }
{
    out.add(&[text.len() as u8]);
    out.add(text);
}

/// The one spelling of the settings.
pub fn encode_settings(alloc: Global, s: &Settings) -> Result<Vec<u8>, RecordError>
    ensures ok { IfOk result (λ text. text.items ≡ settings_text s.now) }
    ensures good { OnOk result (bad_field s.now ≡ None) }
    ensures refused { IfErr result (FailsBy (settings_fault s.now)) }
{
    check(s)?;
    let mut out = Writer::new(alloc);
    add_limits(&mut out, s);
    add_text(&mut out, s.name.as_bytes());
    add_text(&mut out, s.handler.as_bytes());
    add_text(&mut out, s.arn.as_bytes());
    out.end()
}
