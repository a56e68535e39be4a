//! Files that are replaced whole or not at all.

ghost use Rattle.a2lab_commands.specs.Drafts.{Settles};

use a2_host::Desk;
use a2_stream::WriteFault;

/// Makes `draft` the file `name` if `answer` says that all of its text was written, and discards it otherwise. Returns `answer`, or a
/// failed write if the draft cannot become the file.
pub fn settled<D: Desk, T: Drop, F: From<WriteFault> + Drop>(
    name: &str,
    draft: D::Draft,
    answer: Result<T, F>,
    desk: &mut D,
) -> Result<T, F>
    ensures { Settles F.from_gives name.now (D.Draft.taker draft) answer (D.files desk.old) (D.files desk.new) result }
{
    match answer {
        Ok(made) => {
            desk.finish(name, draft)?;
            Ok(made)
        }
        Err(fault) => {
            desk.discard_draft(draft);
            Err(fault)
        }
    }
}
