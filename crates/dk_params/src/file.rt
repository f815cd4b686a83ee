// The whole text of a parameters file.
ghost use Rattle.std.specs.Prelude.{◌≡◌, ◌+◌, ◌*◌, ◌≤◌, [], ◌∷◌, length, map, flat_map, codes, decimal, take};
ghost use Rattle.std.specs.List.{zip, enumerate_from};
ghost use Rattle.dk_num.specs.Texts.{sci_text};
ghost use Rattle.dk_types.specs.Labels.{AreLabels};
ghost use Rattle.dk_params.specs.Bounds.{bound_with};
ghost use Rattle.dk_params.specs.Pages.{AddsLine, AddsLines, AreShort, HasRoom, told};
ghost use Rattle.dk_params.specs.Params.{line, line_text, numbered, variable_lines, asked_lines, derivative_lines, tags, lines_with, params_with};

use crate::page::{LONGEST_LINE, Page};
use dk_num::Dec;
use dk_types::{ParamForm, Text};

/// Writes the line of each variable, with its value.
fn write_variables(page: &mut Page<'_>, labels: &[Text], point: &[Dec])
    requires labels { AreLabels labels.now }
    requires width { length point.now ≡ length labels.now }
    requires room { HasRoom page.old (length labels.now * LONGEST_LINE) }
    ensures { AddsLines page.old page.new (length labels.now) (flat_map (line_text page.old.form) (variable_lines labels.now point.now)) }
{
    for (place, label) in labels.iter().enumerate() {
        write_variable_line(page, label, &point[place]);
    }
}

fn write_variable_line(page: &mut Page<'_>, label: &Text, value: &Dec)
    requires room { HasRoom page.old LONGEST_LINE }
    requires short { length label.now ≤ 255 }
    ensures { AddsLine page.old page.new (line_text page.old.form (line (sci_text value.now) label.now)) }
{
    let mut text = [0u8; 64];
    let length = value.sci_text(&mut text);
    page.line(&text[..length], label.as_str().as_bytes());
}

/// Writes a line for each response, which asks for its value.
fn write_asked(page: &mut Page<'_>, labels: &[Text])
    requires labels { AreLabels labels.now }
    requires room { HasRoom page.old (length labels.now * LONGEST_LINE) }
    ensures { AddsLines page.old page.new (length labels.now) (flat_map (line_text page.old.form) (asked_lines labels.now)) }
{
    for (place, label) in labels.iter().enumerate() {
        write_asked_line(page, place as u32 + 1, label);
    }
}

fn write_asked_line(page: &mut Page<'_>, number: u32, label: &Text)
    requires room { HasRoom page.old LONGEST_LINE }
    requires short { length label.now ≤ 255 }
    ensures { AddsLine page.old page.new (line_text page.old.form (line (codes "1") (numbered (codes "ASV_") number label.now))) }
{
    page.numbered_line(b"1", b"ASV_", number, label.as_str().as_bytes());
}

/// Writes a line for each variable, by its number.
fn write_derivatives(page: &mut Page<'_>, labels: &[Text])
    requires labels { AreLabels labels.now }
    requires room { HasRoom page.old (length labels.now * LONGEST_LINE) }
    ensures { AddsLines page.old page.new (length labels.now) (flat_map (line_text page.old.form) (derivative_lines labels.now)) }
{
    for (place, label) in labels.iter().enumerate() {
        write_derivative_line(page, place as u32 + 1, label);
    }
}

fn write_derivative_line(page: &mut Page<'_>, number: u32, label: &Text)
    requires room { HasRoom page.old LONGEST_LINE }
    requires short { length label.now ≤ 255 }
    ensures { AddsLine page.old page.new (line_text page.old.form (line (decimal number) (numbered (codes "DVV_") number label.now))) }
{
    let mut digits = itoa::Buffer::new();
    let value = digits.format(number).as_bytes();
    page.numbered_line(value, b"DVV_", number, label.as_str().as_bytes());
}

/// The tags of the numbers of variables, functions, derivative variables and analysis components, and of the evaluation.
#[derive(Clone, Copy)]
struct CountTags {
    variables: &'static [u8],
    functions: &'static [u8],
    derivatives: &'static [u8],
    components: &'static [u8],
    evaluation: &'static [u8],
}

fn tags_of(form: ParamForm) -> CountTags
    ensures tags { told result ≡ tags form }
    ensures short { AreShort (told result) }
{
    match form {
        ParamForm::Standard => CountTags {
            variables: b"variables",
            functions: b"functions",
            derivatives: b"derivative_variables",
            components: b"analysis_components",
            evaluation: b"eval_id",
        },
        ParamForm::Aprepro => CountTags {
            variables: b"DAKOTA_VARS",
            functions: b"DAKOTA_FNS",
            derivatives: b"DAKOTA_DER_VARS",
            components: b"DAKOTA_AN_COMPS",
            evaluation: b"DAKOTA_EVAL_ID",
        },
    }
}

/// The most bytes of a parameters file of so many variables and responses.
pub(crate) fn most_bytes(variables: usize, responses: usize) -> usize
    requires variables { variables ≤ 100 }
    requires responses { responses ≤ 100 }
    ensures { result ≡ bound_with variables responses }
{
    let lines = 2 * variables + responses + 5;
    lines * LONGEST_LINE
}

/// Writes all lines.
fn write_lines(
    page: &mut Page<'_>,
    tags: CountTags,
    variables: &[Text],
    responses: &[Text],
    evaluation: u32,
    point: &[Dec],
)
    requires variables { AreLabels variables.now }
    requires responses { AreLabels responses.now }
    requires width { length point.now ≡ length variables.now }
    requires tags { AreShort (told tags) }
    requires room { HasRoom page.old (bound_with (length variables.now) (length responses.now)) }
    ensures { AddsLines page.old page.new (2 * length variables.now + length responses.now + 5)
        (flat_map (line_text page.old.form) (lines_with (told tags) variables.now responses.now evaluation point.now)) }
{
    page.count_line(variables.len() as u32, tags.variables);
    write_variables(page, variables, point);
    page.count_line(responses.len() as u32, tags.functions);
    write_asked(page, responses);
    page.count_line(variables.len() as u32, tags.derivatives);
    write_derivatives(page, variables);
    page.count_line(0, tags.components);
    page.count_line(evaluation, tags.evaluation);
}

/// Writes the parameters file of a task with these labels at the front, and answers its length in bytes.
pub(crate) fn write_file(
    form: ParamForm,
    variables: &[Text],
    responses: &[Text],
    evaluation: u32,
    point: &[Dec],
    out: &mut [u8],
) -> usize
    requires variables { AreLabels variables.now }
    requires responses { AreLabels responses.now }
    requires width { length point.now ≡ length variables.now }
    requires room { bound_with (length variables.now) (length responses.now) ≤ length out.old }
    ensures text { take result out.new ≡ params_with form variables.now responses.now evaluation point.now }
    ensures within { result ≤ bound_with (length variables.now) (length responses.now) }
{
    let mut page = Page::new(form, out);
    write_lines(
        &mut page,
        tags_of(form),
        variables,
        responses,
        evaluation,
        point,
    );
    page.length()
}
