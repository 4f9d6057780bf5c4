// The worked cases, each asked once more.
use tasks::Result;
use worked_cases::worked_cases;

pub(crate) fn tell_worked_cases(rt: &HostRuntime) -> Result<()> {
    for case in worked_cases() {
        let answer = case.stretch.holds(case.event);
        println!(rt;
            "modulus {}, mark {}, now {}, event {}: {answer}, as worked out: {}",
            case.stretch.modulus,
            case.stretch.from,
            case.stretch.to,
            case.event,
            answer == case.inside
        )?;
    }
    Ok(())
}
