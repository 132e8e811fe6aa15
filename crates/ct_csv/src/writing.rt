// The records of a table's file.

ghost use Rattle.std.specs.Prelude.{◌≡◌, ◌<◌, [], ◌∷◌, All, map, length, string_bytes, IfOk, IfSome, IsTrue, OnOk};
ghost use Rattle.std.specs.List.{list_all};
ghost use Rattle.csv.specs.Records.{AllText};
ghost use Rattle.csv.specs.Writing.{default_writer, row_text};
ghost use Rattle.ct_word.specs.declared.kinds.Class.TheVariants as class;
ghost use Rattle.ct_word.specs.WellFormed.{IsWellFormed, is_place_of};
ghost use Rattle.ct_word.specs.Reading.{term_at};
ghost use Rattle.ct_rewrite.specs.Nodes.{IsOrdered, is_position, node_condition};
ghost use Rattle.ct_csv.specs.Csv.{AreTexts};
ghost use Rattle.ct_csv.specs.Writing.{HasWritten, IsReady};
ghost use Rattle.ct_csv.specs.Exported as spec;

use crate::printing::{push_condition, push_renamed};
use csv::{Writer, WriterBuilder};
use ct_operators::CTable;
use ct_rewrite::Node;
use ct_word::{CRow, Memory, Text, term_at};
use std::alloc::Global;

/// Whether a node is True.
fn is_true(node: &Node) -> bool
    ensures { result ≡ spec.is_true_node node.now }
{
    match node {
        Node::True => true,
        _ => false,
    }
}

/// Whether a node is False.
fn is_false(node: &Node) -> bool
    ensures { result ≡ spec.is_false_node node.now }
{
    match node {
        Node::False => true,
        _ => false,
    }
}

/// The field of the condition at a position of a node list, empty for True.
fn condition_field(
    alloc: Global,
    underscores: usize,
    nodes: &[Node],
    position: u32,
) -> Result<String, Memory>
    requires ordered { IsOrdered nodes.now }
    requires within { position < length nodes.now }
    ensures { IfOk result (λ s. string_bytes s ≡ spec.condition_text underscores (node_condition nodes.now position)) }
{
    let mut out = String::new(alloc);
    if is_true(&nodes[position as usize]) {
        return Ok(out);
    }
    push_condition(&mut out, underscores, nodes, position)?;
    Ok(out)
}

/// The field of the cell at a place.
fn cell_field(
    alloc: Global,
    underscores: usize,
    words: &[u64],
    place: u32,
) -> Result<String, Memory>
    requires formed { IsWellFormed words.now }
    requires term { IsTrue (is_place_of words.now class.Term place) }
    ensures { IfOk result (λ s. string_bytes s ≡ spec.renamed_text underscores (term_at words.now place)) }
{
    let term = term_at(alloc, words, place)?;
    let mut out = String::new(alloc);
    push_renamed(&mut out, underscores, &term)?;
    Ok(out)
}

/// The fields of the cells at these places.
fn cell_fields(
    alloc: Global,
    underscores: usize,
    words: &[u64],
    cells: &[u32],
) -> Result<Vec<String>, Memory>
    requires formed { IsWellFormed words.now }
    requires terms { All (λ p. IsTrue (is_place_of words.now class.Term p)) cells.now }
    ensures { IfOk result (λ v. map string_bytes v.items ≡ map (spec.renamed_text underscores) (map (term_at words.now) cells.now)) }
{
    let mut fields = Vec::new(alloc);
    for place in cells {
        let field = cell_field(alloc, underscores, words, *place)?;
        fields.push(field)?;
    }
    Ok(fields)
}

/// The text of a condition, and its position in a node list.
#[derive(Drop)]
pub struct Field {
    pub position: u32,
    pub text: String,
}

/// The text of the condition at a position of a node list, which is the one at hand if that is of the same position.
fn field_at(
    alloc: Global,
    underscores: usize,
    nodes: &[Node],
    position: u32,
    before: Option<Field>,
) -> Result<Field, Memory>
    requires ordered { IsOrdered nodes.now }
    requires within { position < length nodes.now }
    requires before { IfSome before (spec.IsFieldOf underscores nodes.now) }
    ensures position { IfOk result (λ f. f.position ≡ position) }
    ensures text { IfOk result (spec.IsFieldOf underscores nodes.now) }
{
    if let Some(field) = before {
        if field.position == position {
            return Ok(field);
        }
    }
    let text = condition_field(alloc, underscores, nodes, position)?;
    Ok(Field { position, text })
}

/// The fields of the first record.
fn first_fields(alloc: Global, columns: &[Text]) -> Result<Vec<String>, Memory>
    ensures { IfOk result (λ v. map string_bytes v.items ≡ spec.first_fields columns.now) }
{
    let mut fields = Vec::new(alloc);
    for name in columns {
        fields.push(String::from_str(alloc, name.as_str())?)?;
    }
    fields.push(String::from_str(alloc, "if")?)?;
    Ok(fields)
}

/// The bytes of fields.
fn views(alloc: Global, fields: &[String]) -> Result<Vec<&[u8]>, Memory>
    ensures { IfOk result (λ v. map (λ f. f.now) v.items ≡ map string_bytes fields.now) }
{
    let mut views = Vec::new(alloc);
    for field in fields {
        views.push(field.as_str().as_bytes())?;
    }
    Ok(views)
}

/// Writes a record. The writer cannot fail, so whatever it says is want of memory.
fn write_record(
    alloc: Global,
    writer: &mut Writer<Vec<u8>>,
    fields: &[String],
) -> Result<(), Memory>
    requires { IsReady writer.old }
    ensures ready { OnOk result (IsReady writer.new) }
    ensures bytes { OnOk result (HasWritten writer.old writer.new (row_text default_writer (map string_bytes fields.now))) }
    ensures texts { AllText (map string_bytes fields.now) }
{
    let views = views(alloc, fields)?;
    match writer.write_fields(views.as_slice()) {
        Ok(()) => Ok(()),
        Err(_) => Err(Memory),
    }
}

/// Writes the record of a row with this text of its condition.
fn write_row(
    alloc: Global,
    writer: &mut Writer<Vec<u8>>,
    underscores: usize,
    words: &[u64],
    cells: &[u32],
    condition: &str,
) -> Result<(), Memory>
    requires ready { IsReady writer.old }
    requires formed { IsWellFormed words.now }
    requires terms { All (λ p. IsTrue (is_place_of words.now class.Term p)) cells.now }
    ensures ready { OnOk result (IsReady writer.new) }
    ensures bytes { OnOk result (HasWritten writer.old writer.new (row_text default_writer (spec.fields_with underscores (map (term_at words.now) cells.now) condition.now))) }
    ensures texts { OnOk result (AllText (spec.fields_with underscores (map (term_at words.now) cells.now) condition.now)) }
{
    let mut fields = cell_fields(alloc, underscores, words, cells)?;
    fields.push(String::from_str(alloc, condition)?)?;
    write_record(alloc, writer, fields.as_slice())
}

/// Writes the records of rows with their conditions at these positions of a node list, but of those that are False. The text
/// of a condition that a row has as the one before it is made once.
fn write_rows(
    alloc: Global,
    writer: &mut Writer<Vec<u8>>,
    underscores: usize,
    words: &[u64],
    rows: &[CRow],
    nodes: &[Node],
    positions: &[u32],
) -> Result<(), Memory>
    requires ready { IsReady writer.old }
    requires formed { IsWellFormed words.now }
    requires terms { All (λ r. All (λ p. IsTrue (is_place_of words.now class.Term p)) r.cells) rows.now }
    requires ordered { IsOrdered nodes.now }
    requires placed { IsTrue (list_all (is_position nodes.now) positions.now) }
    requires as_many { length positions.now ≡ length rows.now }
    ensures ready { OnOk result (IsReady writer.new) }
    ensures bytes { OnOk result (HasWritten writer.old writer.new (spec.records_text (spec.row_records underscores (spec.printed_rows words.now nodes.now rows.now positions.now)))) }
    ensures texts { OnOk result (AreTexts (spec.row_records underscores (spec.printed_rows words.now nodes.now rows.now positions.now))) }
{
    let mut last = None;
    for (i, row) in rows.iter().enumerate() {
        let position = positions[i];
        if is_false(&nodes[position as usize]) {
            continue;
        }
        let field = field_at(alloc, underscores, nodes, position, last.take())?;
        let cells = row.cells.as_slice();
        write_row(
            alloc,
            writer,
            underscores,
            words,
            cells,
            field.text.as_str(),
        )?;
        last = Some(field);
    }
    Ok(())
}

/// The bytes of a table's file, with the conditions of its rows at these positions of a node list.
pub fn file(
    alloc: Global,
    underscores: usize,
    words: &[u64],
    table: &CTable,
    nodes: &[Node],
    positions: &[u32],
) -> Result<Vec<u8>, Memory>
    requires formed { IsWellFormed words.now }
    requires terms { All (λ r. All (λ p. IsTrue (is_place_of words.now class.Term p)) r.cells) table.now.rows }
    requires ordered { IsOrdered nodes.now }
    requires placed { IsTrue (list_all (is_position nodes.now) positions.now) }
    requires as_many { length positions.now ≡ length table.now.rows }
    ensures bytes { IfOk result (λ v. v.items ≡ spec.records_text (spec.file_records underscores table.now.columns (spec.printed_rows words.now nodes.now table.now.rows positions.now))) }
    ensures texts { IfOk result (λ _. AreTexts (spec.file_records underscores table.now.columns (spec.printed_rows words.now nodes.now table.now.rows positions.now))) }
{
    let first = first_fields(alloc, table.columns.as_slice())?;
    let mut writer = WriterBuilder::new().from_writer(Vec::new(alloc));
    write_record(alloc, &mut writer, first.as_slice())?;
    let rows = table.rows.as_slice();
    write_rows(
        alloc,
        &mut writer,
        underscores,
        words,
        rows,
        nodes,
        positions,
    )?;
    match writer.into_inner() {
        Ok(bytes) => Ok(bytes),
        Err(_) => Err(Memory),
    }
}
