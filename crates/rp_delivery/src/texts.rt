//! The texts of files, as a put takes them.
ghost use Rattle.std.specs.Prelude.{IfOk};
ghost use Rattle.rp_delivery.specs.Deliveries.{IsFileText};

use plain_data::{Failure, Text};
use rp_files::{Folder, LoadFault, file_bytes};
use rp_repo::Refusal;
use std::alloc::Global;

/// The text of the file of a path, or why none is put: it is too large, or in no request.
pub(crate) enum FileText {
    Text(Text),
    Refused(Refusal),
}

pub(crate) fn text_at<D: Folder>(
    alloc: Global,
    folder: &D,
    path: &str,
) -> Result<FileText, Failure<LoadFault>>
    ensures { IfOk result (λ found. IsFileText (D.files folder.now) path.now found) }
{
    match file_bytes(alloc, folder, path) {
        Ok(bytes) => match String::from_utf8(bytes) {
            Ok(text) => Ok(FileText::Text(Text::new(text))),
            Err(_) => Ok(FileText::Refused(Refusal::BadRequest)),
        },
        Err(Failure::Fault(LoadFault::TooLarge(..))) => Ok(FileText::Refused(Refusal::TooLarge)),
        Err(failure) => Err(failure),
    }
}
