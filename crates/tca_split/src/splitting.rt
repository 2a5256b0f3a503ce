//! Splitting a capture by its two readings.
ghost use Rattle.std.specs.Prelude.{◌≡◌, ◌≢◌, ◌⊎◌, ◌+◌, ℕ, List, Some, Err, IfOk, IfErr, OnOk, IsErrOf};
ghost use Rattle.tca_wire.specs.Frames.{frames_of};
ghost use Rattle.tca_report.specs.device.Devices.{Rises};
ghost use Rattle.tca_split.specs.Parts.{domains_of};
ghost use Rattle.tca_split.specs.Failures.{CountsRead, CountsWrite, most_turns};
ghost use Rattle.tca_split.specs.Folders.{Files};
ghost use Rattle.tca_split.specs.Splits.{IsFree, IsReady, AreSplit, AreBegun, IsSplit, IsRefused};
ghost use Rattle.tca_split.specs.Wants.{WantsMemory};
ghost use Rattle.tca_split.specs.inside.Buffering.{IsWritingRefused};

use crate::buffers::Buffers;
use crate::fault::SplitFault;
use crate::folder::{Folder, check_free, create_all};
use crate::survey::{PIECE, first_reading, new_piece};
use std::alloc::Global;
use tca_report::{Read, ReadFault};

// The most octets of a message, whose length its header says in 16 bits.
const MOST_MESSAGE: usize = 65_535;

/// How many observation domains and messages a capture has.
#[derive(Clone, Copy, Debug, PartialEq, Eq)]
pub struct Parts {
    /// Observation domains with a message.
    pub domains: u64,
    /// Messages; 2^64 - 1 stands for all above it too.
    pub messages: u64,
}

// Makes a file of each of these domains, and reads a capture into them.
fn write_parts<S: Read, F: Folder>(
    alloc: Global,
    domains: &[u32],
    reader: &mut S,
    folder: &mut F,
) -> Result<(), SplitFault>
    ensures ok { OnOk result ((octets : List ℕ) (files : Files) → S.left reader.old ≡ Some octets → F.files folder.old ≡ Some files
        → domains.now ≡ domains_of (frames_of octets).0 → AreSplit octets files (F.files folder.new)) }
    ensures err { IfErr result (λ e. (octets : List ℕ) (files : Files) → S.left reader.old ≡ Some octets → F.files folder.old ≡ Some files
        → domains.now ≡ domains_of (frames_of octets).0 → IsFree octets files → AreBegun octets files (F.files folder.new)) }
    ensures fault { IfErr result (λ e. (octets : List ℕ) → S.left reader.old ≡ Some octets → domains.now ≡ domains_of (frames_of octets).0
        → IsWritingRefused octets e) }
    ensures read { CountsRead result (S.failures reader.old) (S.failures reader.new) }
    ensures turns { IsErrOf result (SplitFault.Read ReadFault.Turns) → S.reads reader.new ≡ S.reads reader.old + most_turns }
    ensures memory { IsErrOf result SplitFault.Memory → F.files folder.new ≡ F.files folder.old }
    ensures write { CountsWrite result (F.failures folder.old) (F.failures folder.new) }
{
    let mut buffers = Buffers::new(alloc, domains)?;
    let piece = new_piece(alloc, PIECE)?;
    let held = Vec::with_capacity(alloc, PIECE + MOST_MESSAGE)?;
    create_all(domains, folder)?;
    buffers.take_all(piece, held, reader, folder)?;
    buffers.empty(domains, folder)?;
    Ok(())
}

/// Writes the messages of each observation domain of a capture, octet by octet and in their order, to a file of the
/// domain, and answers how many domains and messages there are. Of a message its framing alone is judged.
///
/// The capture is read twice, in pieces. The first reading tells its domains, or the first thing from the left for which
/// it isn't split. Then each domain's file is looked for, and all memory is taken. So far nothing was made. Then the files
/// are made, in the order in which the domains first come, and the second reading fills them.
///
/// These are told before any file was made, so that all files are as they were:
/// - `Wire`: a header with a version other than 10 or a length below 16, or an end within a message; `Limits`: a message
///   of one domain more than 4,096. The first of them from the left is told.
/// - `Exists`: a file of a domain is there.
/// - `Memory`: there was none for the first reading, or for the second and its buffers.
///
/// These may come before or after, and after it leave files that were begun, each with octets from the front of its
/// domain's part, or with none. They have to be deleted before the next call, which else is `Exists`:
/// - `Read`: a read of the first reading failed, or it didn't end within 2^64 - 1 reads, and no file was made; or so it
///   was with the second, and files were begun.
/// - `Write`: a file couldn't be looked for, and none was made; or one couldn't be made or written, and files were begun.
///
/// Where the second reading isn't as the first was, a domain that the first had none of is `Changed`, and a fault of the
/// framing `Wire`; then too files were begun.
pub fn split<R: Read, S: Read, F: Folder>(
    alloc: Global,
    first: &mut R,
    second: &mut S,
    folder: &mut F,
) -> Result<Parts, SplitFault>
    ensures done { IfOk result (λ parts. (octets : List ℕ) (files : Files) → R.left first.old ≡ Some octets
        → S.left second.old ≡ Some octets → F.files folder.old ≡ Some files
        → IsSplit octets files (F.files folder.new) parts) }
    ensures refused { IfErr result (λ e. (octets : List ℕ) (files : Files) → R.left first.old ≡ Some octets
        → S.left second.old ≡ Some octets → F.files folder.old ≡ Some files
        → IsRefused octets files (F.files folder.new) e) }

    // Where memory is told, nothing in front was to be refused.
    ensures memory { IsErrOf result SplitFault.Memory → (octets : List ℕ) → R.left first.old ≡ Some octets
        → (R.reads first.new ≡ R.reads first.old) ⊎ WantsMemory octets (R.left first.new) ⊎ IsReady octets (F.files folder.old) }

    // And no file was made.
    ensures untouched { IsErrOf result SplitFault.Memory → F.files folder.new ≡ F.files folder.old }

    // A read failed: of the first reading, before a file was touched, or of the second.
    ensures read { IsErrOf result (SplitFault.Read ReadFault.Read)
        → (Rises (R.failures first.old) (R.failures first.new) × (F.files folder.new ≡ F.files folder.old))
        ⊎ Rises (S.failures second.old) (S.failures second.new) }
    ensures turns { IsErrOf result (SplitFault.Read ReadFault.Turns)
        → ((R.reads first.new ≡ R.reads first.old + most_turns) × (F.files folder.new ≡ F.files folder.old))
        ⊎ (S.reads second.new ≡ S.reads second.old + most_turns) }

    // No failure is told as something else.
    ensures quiet { result ≢ Err (SplitFault.Read ReadFault.Read)
        → (R.failures first.new ≡ R.failures first.old) × (S.failures second.new ≡ S.failures second.old) }
    ensures write { CountsWrite result (F.failures folder.old) (F.failures folder.new) }
{
    let survey = first_reading(alloc, first)?;
    let domains = survey.domains.as_slice();
    check_free(domains, folder)?;
    write_parts(alloc, domains, second, folder)?;
    Ok(Parts {
        domains: domains.len() as u64,
        messages: survey.messages,
    })
}
