// The checker for other people's pages, for hosts.
ghost use Rattle.std.specs.Prelude.{◌≡◌};
ghost use Rattle.page_check.specs.Report.{Reported, report_of};

// 0 with the report in the first nine numbers; or why there is none, and the numbers stay: 1 another length than 768, 2 no good
// copy, 16 room for fewer than nine.
#[unsafe(no_mangle)]
pub extern "C" fn nib_page_report(answer: &[u8], report: &mut [u64]) -> u32
    ensures { ◌≡◌ {A = Reported} (record { answer = result; room = report.new }) (report_of answer.now report.old) }
{
    page_check::report::report(answer, report)
}
