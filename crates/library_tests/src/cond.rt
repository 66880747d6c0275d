//! What conditions say of cells, and how their texts are read, where no script can show it.
ghost use Rattle.std.specs.Prelude.{◌≤◌, length, IfOk};

use std::alloc::Global;
use std::test::Fail;
use ts_base::{Boxed, ByteList, Coords, Label, Row, Val, ValType};
use ts_cond::{Cond, CondFault, CondField, CondFieldList, CondNode, CondOp, NodeList, Pick};
use ts_value::default_fill;

// A field: a dimension where it has an index.
fn field(
    alloc: Global,
    name: &str,
    dim: Option<u8>,
    ty: ValType,
    nullable: bool,
) -> Result<CondField, Fail> {
    Ok(CondField {
        name: Label::new(name).ok_or("no label")?,
        dim,
        ty,
        nullable,
        fill: default_fill(alloc, ty, nullable),
    })
}

// A dimension x, and the attributes v, t and b.
fn fields(alloc: Global) -> Result<CondFieldList, Fail>
    ensures { IfOk result (λ fields. length fields ≤ 255) }
{
    let mut list = CondFieldList::new(alloc);
    list.push(field(alloc, "x", Some(0), ValType::I64, false)?)?;
    list.push(field(alloc, "v", None, ValType::I64, false)?)?;
    list.push(field(alloc, "t", None, ValType::Text, false)?)?;
    list.push(field(alloc, "b", None, ValType::Blob, false)?)?;
    if list.len() <= 255 {
        Ok(list)
    } else {
        Err(Fail::from("too many fields"))
    }
}

fn text(alloc: Global, bytes: &[u8]) -> Result<Val, Fail> {
    Ok(Val::Bytes(ByteList::of_bytes(alloc, bytes)?))
}

#[test]
fn a_text_is_read_as_its_tree(rt: HostRuntime) -> Result<(), Fail> {
    let alloc = rt.alloc();
    let fields = fields(alloc)?;
    let cond = Cond::parse(alloc, b"not v<=-007 or t='it''s'and b!=x'fE00'", &fields)
        .ok()
        .ok_or("a text is not read")?;
    let least = CondNode::Compare {
        op: CondOp::AtMost,
        field: 0,
        val: Val::Int(-7),
    };
    let mut both = NodeList::new(alloc);
    both.push(CondNode::Compare {
        op: CondOp::Equal,
        field: 1,
        val: text(alloc, b"it's")?,
    })?;
    both.push(CondNode::Compare {
        op: CondOp::Unequal,
        field: 2,
        val: text(alloc, b"\xfe\x00")?,
    })?;
    let mut any = NodeList::new(alloc);
    any.push(CondNode::Not(Boxed::new(alloc, least)?))?;
    any.push(CondNode::All(both))?;
    assert_eq!(rt; cond.root, CondNode::Any(any));
    assert_eq!(rt; cond.fields.len(), 3);
    assert_eq!(rt; cond.fields.at(0).name.text(), "v");
    assert_eq!(rt; cond.fields.at(2).name.text(), "b");
    Ok(())
}

#[test]
fn bytes_that_are_no_text_are_refused(rt: HostRuntime) -> Result<(), Fail> {
    let alloc = rt.alloc();
    let fields = fields(alloc)?;
    for (bytes, broken) in [
        (b"t = '\xff'".as_slice(), 4),
        (b"t = 'a\xc3'".as_slice(), 4),
        (b"\xff".as_slice(), 0),
    ] {
        let fault = Cond::parse(alloc, bytes, &fields).err();
        assert_eq!(rt; fault, Some(CondFault::Syntax { at: broken }), "{bytes:?}");
    }
    Ok(())
}

#[test]
fn a_field_without_an_agreeing_attribute_is_filled(rt: HostRuntime) -> Result<(), Fail> {
    let alloc = rt.alloc();
    let cond = Cond {
        fields: fields(alloc)?,
        root: CondNode::Compare {
            op: CondOp::Equal,
            field: 1,
            val: Val::Int(-9223372036854775808),
        },
    };
    let mut attrs = CondFieldList::new(alloc);
    attrs.push(field(alloc, "v", None, ValType::I64, true)?)?;
    let picks = cond.bind(alloc, &attrs)?;
    let filled = Pick::Fill(Val::Int(-9223372036854775808));
    assert_eq!(rt; picks.as_slice().first(), Some(&Pick::Coord(0)));
    assert_eq!(rt; picks.as_slice().get(1), Some(&filled));
    assert!(rt; cond.matches(&picks, &Coords::new(&[3]), &Row::new(alloc)));
    Ok(())
}
