//! The laws of reports: functions with nothing to do, each with a law as its contract.
ghost use Rattle.sw_search.specs.Laws.{OneReport, ReportsSayTheSame};

/// With one worker a protocol has one report, whatever templates there are.
pub fn one_report()
    ensures { OneReport }
{}

/// With any numbers of workers two reports have lists of one meaning, and one status.
pub fn reports_say_the_same()
    ensures { ReportsSayTheSame }
{}
