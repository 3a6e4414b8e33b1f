//! Laws on the files of journals, and on the calls that no journal has.
ghost use Rattle.nfs_journal.specs.JournalLaws.{AreInNone, HaveTheirJournals};

/// The law that the file which is written for a journal is that of this journal: its letters tell the profile.
pub fn files_have_their_journals()
    ensures { HaveTheirJournals }
{}

/// The law that under "plain" no journal has a call of READDIR or SETATTR, and that none has one of COMMIT.
pub fn calls_in_no_journal()
    ensures { AreInNone }
{}
