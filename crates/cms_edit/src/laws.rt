// What follows of runs of the editor.
ghost use Rattle.cms_edit.specs.LawsEdits.{FoldsEdits};

/// Subcommands, one after another.
///
/// - Behind any turns as a session tells them, none of which loads a file, the buffer and the current line are the fold of `edit` over the
///   subcommands and the replies to their puts, and each put is of exactly the buffer as these have left it, to the file that is edited.
pub fn laws_of_edits()
    ensures { FoldsEdits }
{}
