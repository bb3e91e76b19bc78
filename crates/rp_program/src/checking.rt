//! What is told of the schema in a file.
ghost use Rattle.std.specs.Prelude.{◌≡◌, ◌≢◌, IfOk, IfErr, IfSome, IsErrOf};
ghost use Rattle.std.specs.Io.KnownBytes.{Appends};
ghost use Rattle.plain_data.specs.declared.failure.Failure.{Failure};
ghost use Rattle.plain_data.specs.Gives.{Fails};
ghost use Rattle.rp_io.specs.Front.{AppendsFront};
ghost use Rattle.ex_check.specs.Check.{report, verdict as verdict_of};
ghost use Rattle.ex_check.specs.Explained.{explanation};
ghost use Rattle.rp_program.specs.declared.fault.StartFault.{StartFault};
ghost use Rattle.rp_program.specs.Starts.{text_at};
ghost use Rattle.rp_program.specs.Checks.{OfFile};
ghost use Rattle.rp_program.specs.Faults.{EndsBy};

use crate::ending::Done;
use crate::fault::Fault;
use ex_check::{check_compiled, compile_schema, explain_text};
use rp_files::{Folder, file_bytes};
use rp_io::Sink;
use std::alloc::Global;
use std::mem;

/// How large a block may be that the C library's allocator keeps once it is let go, where it has had one of this size back
/// before.
const LARGEST_KEPT: usize = 31 << 20;

/// Has the allocator keep the blocks of long lists that are let go. Else it gives each back to the system, and the lists
/// after it take fresh pages, which cost a twentieth of a check. Nothing but time rests on it.
fn keep_large_blocks(alloc: Global) {
    if let Ok(block) = Vec::<u8>::with_capacity(alloc, LARGEST_KEPT) {
        drop(block);
    }
}

/// Tells whether the file of this path is a schema, as [`check_text`](ex_check::check_text) does. The process is to end then:
/// the schema isn't let go of.
pub fn check<D: Folder, W: Sink>(
    alloc: Global,
    folder: &D,
    path: &str,
    writer: &mut W,
) -> Result<Done, Fault>
    ensures told { IfOk result (λ done. OfFile (D.files folder.now) path.now (λ text.
        (done ≡ Done.Checked (verdict_of text)) × Appends (W.contents writer.old) (W.contents writer.new) (report text))) }

    // After a write that failed.
    ensures cut { IsErrOf result Fault.Write → OfFile (D.files folder.now) path.now (λ text.
        AppendsFront (W.contents writer.old) (W.contents writer.new) (report text)) }
    ensures write_failed { IsErrOf result Fault.Write → W.write_failures writer.new ≢ W.write_failures writer.old }

    // Else nothing was written, and the file gives nothing.
    ensures start { (why : Failure StartFault) → IsErrOf result (Fault.Start why) →
        (writer.new ≡ writer.old) × IfSome (D.files folder.now) (λ held. Fails why (text_at held path.now)) }
    ensures faults { IfErr result (λ fault. EndsBy (W.write_failures writer.new ≢ W.write_failures writer.old) ⊥ (λ _ _. ⊥) fault) }
{
    keep_large_blocks(alloc);
    let text = file_bytes(alloc, folder, path)?;
    let compiled = compile_schema(alloc, &text);
    let checked = check_compiled(alloc, &text, &compiled, writer);
    // The process ends, and all of its memory goes with it. To give that back value by value would take long.
    mem::forget(compiled);
    Ok(Done::Checked(checked?))
}

/// The same with the lines of the text, as [`explain_text`] does.
pub fn explain<D: Folder, W: Sink>(
    alloc: Global,
    folder: &D,
    path: &str,
    writer: &mut W,
) -> Result<Done, Fault>
    ensures told { IfOk result (λ done. OfFile (D.files folder.now) path.now (λ text.
        (done ≡ Done.Checked (verdict_of text)) × Appends (W.contents writer.old) (W.contents writer.new) (explanation text))) }

    // After a write that failed.
    ensures cut { IsErrOf result Fault.Write → OfFile (D.files folder.now) path.now (λ text.
        AppendsFront (W.contents writer.old) (W.contents writer.new) (explanation text)) }
    ensures write_failed { IsErrOf result Fault.Write → W.write_failures writer.new ≢ W.write_failures writer.old }

    // Else nothing was written, and the file gives nothing.
    ensures start { (why : Failure StartFault) → IsErrOf result (Fault.Start why) →
        (writer.new ≡ writer.old) × IfSome (D.files folder.now) (λ held. Fails why (text_at held path.now)) }
    ensures faults { IfErr result (λ fault. EndsBy (W.write_failures writer.new ≢ W.write_failures writer.old) ⊥ (λ _ _. ⊥) fault) }
{
    let text = file_bytes(alloc, folder, path)?;
    Ok(Done::Checked(explain_text(alloc, &text, writer)?))
}
