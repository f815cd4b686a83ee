//! A study or a fault as one line.
use crate::{ReadRefusal, StudyFault, read_study};
use dk_types::{
    Driver, FailRule, Interface, Labels, Method, ParamForm, Study, Units, Variables, Way,
};
use std::alloc::{AllocError, Global};

fn push_labels(alloc: Global, line: &mut String, labels: &Labels) -> Result<(), AllocError> {
    for label in labels.items() {
        line.push_str(&format!(in alloc; " {}", label.as_str())?)?;
    }
    Ok(())
}

fn push_units(alloc: Global, line: &mut String, units: &Units) -> Result<(), AllocError> {
    for unit in units.items() {
        line.push_str(&format!(in alloc; " {unit}")?)?;
    }
    Ok(())
}

fn push_counts(alloc: Global, line: &mut String, counts: &[u32]) -> Result<(), AllocError> {
    for count in counts {
        line.push_str(&format!(in alloc; " {count}")?)?;
    }
    Ok(())
}

fn push_variables(
    alloc: Global,
    line: &mut String,
    variables: &Variables,
) -> Result<(), AllocError> {
    push_labels(alloc, line, &variables.labels)?;
    line.push_str(" from")?;
    push_units(alloc, line, &variables.initial)?;
    if let Some(lower) = &variables.lower {
        line.push_str(" above")?;
        push_units(alloc, line, lower)?;
    }
    if let Some(upper) = &variables.upper {
        line.push_str(" below")?;
        push_units(alloc, line, upper)?;
    }
    Ok(())
}

fn push_way(alloc: Global, line: &mut String, way: &Way) -> Result<(), AllocError> {
    match way {
        Way::Step(step) => {
            line.push_str(" by")?;
            push_units(alloc, line, step)
        }
        Way::Final(last) => {
            line.push_str(" to")?;
            push_units(alloc, line, last)
        }
    }
}

fn push_method(alloc: Global, line: &mut String, method: &Method) -> Result<(), AllocError> {
    match method {
        Method::Vector { steps, way } => {
            line.push_str(&format!(in alloc; " vector {steps}")?)?;
            push_way(alloc, line, way)
        }
        Method::List { points } => {
            line.push_str(" list")?;
            push_units(alloc, line, points)
        }
        Method::Centered { step, counts } => {
            line.push_str(" centered")?;
            push_units(alloc, line, step)?;
            line.push_str(" times")?;
            push_counts(alloc, line, counts.items())
        }
        Method::Multidim { partitions } => {
            line.push_str(" grid")?;
            push_counts(alloc, line, partitions.items())
        }
        Method::Compass {
            delta,
            threshold,
            iterations,
            evaluations,
        } => line.push_str(&format!(in alloc;
            " compass {delta} {threshold} {iterations} {evaluations}"
        )?),
    }
}

fn push_driver(alloc: Global, line: &mut String, driver: &Driver) -> Result<(), AllocError> {
    match driver {
        Driver::Direct => line.push_str(" direct"),
        Driver::Fork { words } => {
            line.push_str(" fork")?;
            for word in words.items() {
                line.push_str(&format!(in alloc; " {}", word.as_str())?)?;
            }
            Ok(())
        }
    }
}

fn push_rule(alloc: Global, line: &mut String, rule: &FailRule) -> Result<(), AllocError> {
    match rule {
        FailRule::Abort => line.push_str(" abort"),
        FailRule::Retry(times) => line.push_str(&format!(in alloc; " retry {times}")?),
        FailRule::Recover(values) => {
            line.push_str(" recover")?;
            for value in values.items() {
                let mut text = [0; 64];
                let length = value.table_text(&mut text);
                line.push_str(" ")?;
                match std::str::from_utf8(&text[..length]) {
                    Ok(text) => line.push_str(text)?,
                    Err(_) => line.push_str("no text")?,
                }
            }
            Ok(())
        }
    }
}

fn push_interface(
    alloc: Global,
    line: &mut String,
    interface: &Interface,
) -> Result<(), AllocError> {
    push_driver(alloc, line, &interface.driver)?;
    line.push_str(&format!(in alloc;
        " {} {}",
        interface.parameters.as_str(),
        interface.results.as_str()
    )?)?;
    if interface.form == ParamForm::Aprepro {
        line.push_str(" aprepro")?;
    }
    if interface.tag {
        line.push_str(" tag")?;
    }
    if interface.save {
        line.push_str(" save")?;
    }
    line.push_str(&format!(in alloc; " {}", interface.concurrency)?)?;
    push_rule(alloc, line, &interface.rule)
}

fn told_study(alloc: Global, study: &Study) -> Result<String, AllocError> {
    let mut line = format!(in alloc; "1e{}", study.unit.exponent)?;
    push_variables(alloc, &mut line, &study.variables)?;
    line.push_str(if study.responses.objectives {
        " objectives"
    } else {
        " responses"
    })?;
    push_labels(alloc, &mut line, &study.responses.labels)?;
    push_method(alloc, &mut line, &study.method)?;
    push_interface(alloc, &mut line, &study.interface)?;
    if let Some(table) = &study.table {
        line.push_str(&format!(in alloc; " into {}", table.as_str())?)?;
    }
    line.push_str(&format!(in alloc; " limit {}", study.limit)?)?;
    Ok(line)
}

/// What reading a text gives.
pub fn told(alloc: Global, text: &[u8]) -> Result<String, AllocError> {
    if text.len() > 1_048_576 {
        return String::from_str(alloc, "too long");
    }
    match read_study(alloc, text) {
        Ok(study) => told_study(alloc, &study),
        Err(ReadRefusal::Study(StudyFault { kind, span })) => {
            format!(in alloc; "{kind:?} {}..{}", span.from, span.to)
        }
        Err(ReadRefusal::NoMemory) => String::from_str(alloc, "NoMemory"),
    }
}
