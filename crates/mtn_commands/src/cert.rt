// The command `cert`.
ghost use Rattle.std.specs.Prelude.{◌≡◌, IfOk, None};
ghost use Rattle.mtn_commands.specs.Certifying.{cert_error};
ghost use Rattle.mtn_commands.specs.Drafts.{Drafts};
ghost use Rattle.mtn_step.specs.Certifying.{signature_of as bytes_of};
ghost use Rattle.mtn_step.specs.Step.{Steps};

use base64::DecodeAllocError;
use base64::engine::general_purpose::STANDARD;
use mtn_base::{Bytes, Cause, Field, Id, NoMemory};
use mtn_certs::{Cert, CertError};
use mtn_history::{Draft, HistoryError, StoreError};
use mtn_ports::{Ident, Keeper};
use mtn_put_certs::put_cert;
use mtn_step::Call;
use std::alloc::Global;

// The bytes of a signature, none where there is no text; None where a text is not strict base64.
fn signature_of(alloc: Global, text: &Option<Bytes>) -> Result<Option<Bytes>, NoMemory>
    ensures { IfOk result (λ bytes. bytes ≡ bytes_of text.now) }
{
    let Some(text) = text else {
        return Ok(Some(Bytes::new(alloc)));
    };
    match STANDARD.decode(alloc, text.as_slice()) {
        Ok(bytes) => Ok(Some(Bytes::from_vec(bytes))),
        Err(DecodeAllocError::DecodeError(_)) => Ok(None),
        Err(DecodeAllocError::OutOfMemory) => Err(NoMemory),
    }
}

/// What a command answers for parts that are no certificate.
pub fn broken(error: CertError) -> HistoryError
    ensures { result ≡ cert_error error }
{
    match error {
        CertError::BadField(field) => HistoryError::Refused(Cause::BadField { field }),
        CertError::TextTooLong { length } => HistoryError::Refused(Cause::TextTooLong { length }),
        CertError::NoMemory => HistoryError::Store(StoreError::NoMemory),
    }
}

/// Holds a certificate of a revision, and answers nothing.
pub fn cert<I: Ident, K: Keeper>(
    alloc: Global,
    ident: &I,
    revision: Id,
    name: &Bytes,
    key: Id,
    value: &Bytes,
    signature: &Option<Bytes>,
    payload: &[u8],
    draft: &mut Draft<'_, K>,
) -> Result<Bytes, HistoryError>
    ensures same_reference { draft.new.keeper.ghost_name ≡ draft.old.keeper.ghost_name }
    ensures drafts { Drafts (I.meaning ident.now) K.contents K.leaves K.faults draft.old.keeper.now draft.new.keeper.now draft.old.pending draft.new.pending
        (Steps (I.meaning ident.now) (Call.Cert revision name.now key value.now signature.now) payload.now) result }
{
    let Some(signature) = signature_of(alloc, signature)? else {
        return Err(HistoryError::Refused(Cause::BadField {
            field: Field::Signature,
        }));
    };
    let made = Cert::new(
        alloc,
        revision,
        name.as_slice(),
        key,
        value.as_slice(),
        signature.as_slice(),
    );
    match made {
        Ok(cert) => put_cert(draft, &cert)?,
        Err(error) => return Err(broken(error)),
    }
    Ok(Bytes::new(alloc))
}
