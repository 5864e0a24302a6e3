//! The laws of the endings. Each function does nothing, and its contract is a law.
ghost use Rattle.sw_run.specs.Laws.{RowsExcludeEachOther, OneReport, ReportsSayTheSame, SafeMeansSafe, OneAnswer, AnswersSayTheSame, AnswerIsTold, WordsHaveStatuses};

/// No two causes stand together, so each answer comes exactly where its cause does, but for faults
/// and want of memory.
pub fn rows_exclude_each_other()
    ensures { RowsExcludeEachOther }
{}

/// With one worker the options and the protocol fix the report, each byte of it.
pub fn one_report()
    ensures { OneReport }
{}

/// With any numbers of workers, two reports on a protocol with the same templates have one status and
/// one word, and each formula of the list of the one follows from the list of the other.
pub fn reports_say_the_same()
    ensures { ReportsSayTheSame }
{}

/// What a report says is true in every reachable state: its list; safety, where the status is 0; and
/// the formula of `safe with`.
pub fn safe_means_safe()
    ensures { SafeMeansSafe }
{}

/// The words and the bytes of the input fix the answer, but for want of memory, failed reads, and
/// queries that end a search, where they are no search by more than one worker.
pub fn one_answer()
    ensures { OneAnswer }
{}

/// Where they are one, the templates and the bytes fix what the answer says, but for the same: two
/// searches found lists of one meaning, whether their reports are told or are too long.
pub fn answers_say_the_same()
    ensures { AnswersSayTheSame }
{}

/// The answer fixes the status and what the sinks gain, where neither fails; where one fails, the
/// other one is as it was.
pub fn answer_is_told()
    ensures { AnswerIsTold }
{}

/// The status of a report is that of its word.
pub fn words_have_statuses()
    ensures { WordsHaveStatuses }
{}
