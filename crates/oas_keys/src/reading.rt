//! The element that a key spells.

ghost use Rattle.std.specs.Prelude.{◌≡◌, Bool, ℕ, ℤ, List};
ghost use Rattle.oas_ring.specs.declared.point.Point.{Point as OnePoint};
ghost use Rattle.oas_elements.specs.declared.element.Turns.{Turns as SomeTurns};
ghost use Rattle.oas_elements.specs.declared.element.Element.{Element as OneElement};
ghost use Rattle.oas_elements.specs.declared.element.Element.TheVariants.{Placement, Text, Rectangle, Polygon, Path, Circle};
ghost use Rattle.oas_elements.specs.Sound.{IsSound};
ghost use Rattle.oas_keys.specs.Keys.{key_of};
ghost use Rattle.oas_keys.specs.Reading.{HasFields, Spells};

use crate::cursor::Cursor;
use crate::points::SpelledPoints;
use crate::spelled::SpelledElement;

/// A placement by its fields.
fn placement(mut left: Cursor<'_>) -> SpelledElement<'_>
    requires { (cell : List ℕ) × (x : ℤ) × (y : ℤ) × (turns : SomeTurns) × (flip : Bool) × HasFields (Placement cell x y turns flip) left }
    ensures { (cell : List ℕ) (x y : ℤ) (turns : SomeTurns) (flip : Bool) → HasFields (Placement cell x y turns flip) left.entry → Spells result (Placement cell x y turns flip) }
{
    let cell = left.text();
    let place = left.signed_pair();
    let turned = left.turned();
    SpelledElement::Placement {
        cell,
        x: place.0,
        y: place.1,
        turns: turned.turns,
        flip: turned.flip,
    }
}

/// A text by its fields.
fn text(mut left: Cursor<'_>) -> SpelledElement<'_>
    requires { (string : List ℕ) × (textlayer : ℕ) × (texttype : ℕ) × (x : ℤ) × (y : ℤ) × HasFields (Text string textlayer texttype x y) left }
    ensures { (string : List ℕ) (textlayer texttype : ℕ) (x y : ℤ) → HasFields (Text string textlayer texttype x y) left.entry → Spells result (Text string textlayer texttype x y) }
{
    let string = left.text();
    let layer = left.unsigned_pair();
    let place = left.signed_pair();
    SpelledElement::Text {
        string,
        textlayer: layer.0,
        texttype: layer.1,
        x: place.0,
        y: place.1,
    }
}

/// A rectangle by its fields.
#[inline(always)]
fn rectangle(mut left: Cursor<'_>) -> SpelledElement<'_>
    requires { (layer : ℕ) × (datatype : ℕ) × (width : ℕ) × (height : ℕ) × (x : ℤ) × (y : ℤ) × HasFields (Rectangle layer datatype width height x y) left }
    ensures { (layer datatype width height : ℕ) (x y : ℤ) → HasFields (Rectangle layer datatype width height x y) left.entry → Spells result (Rectangle layer datatype width height x y) }
{
    let layer = left.unsigned_pair();
    let size = left.unsigned_pair();
    let place = left.signed_pair();
    SpelledElement::Rectangle {
        layer: layer.0,
        datatype: layer.1,
        width: size.0,
        height: size.1,
        x: place.0,
        y: place.1,
    }
}

/// A polygon by its fields.
fn polygon(mut left: Cursor<'_>) -> SpelledElement<'_>
    requires { (layer : ℕ) × (datatype : ℕ) × (points : List OnePoint) × HasFields (Polygon layer datatype points) left }
    ensures { (layer datatype : ℕ) (points : List OnePoint) → HasFields (Polygon layer datatype points) left.entry → Spells result (Polygon layer datatype points) }
{
    let layer = left.unsigned_pair();
    SpelledElement::Polygon {
        layer: layer.0,
        datatype: layer.1,
        points: SpelledPoints::of(left),
    }
}

/// A path by its fields.
fn path(mut left: Cursor<'_>) -> SpelledElement<'_>
    requires { (layer : ℕ) × (datatype : ℕ) × (half_width : ℕ) × (start : ℤ) × (end : ℤ) × (points : List OnePoint) × HasFields (Path layer datatype half_width start end points) left }
    ensures { (layer datatype half_width : ℕ) (start end : ℤ) (points : List OnePoint) →
        HasFields (Path layer datatype half_width start end points) left.entry → Spells result (Path layer datatype half_width start end points) }
{
    let layer = left.unsigned_pair();
    let half_width = left.unsigned();
    let ends = left.signed_pair();
    SpelledElement::Path {
        layer: layer.0,
        datatype: layer.1,
        half_width,
        start: ends.0,
        end: ends.1,
        points: SpelledPoints::of(left),
    }
}

/// A circle by its fields.
fn circle(mut left: Cursor<'_>) -> SpelledElement<'_>
    requires { (layer : ℕ) × (datatype : ℕ) × (radius : ℕ) × (x : ℤ) × (y : ℤ) × HasFields (Circle layer datatype radius x y) left }
    ensures { (layer datatype radius : ℕ) (x y : ℤ) → HasFields (Circle layer datatype radius x y) left.entry → Spells result (Circle layer datatype radius x y) }
{
    let layer = left.unsigned_pair();
    let radius = left.unsigned();
    let place = left.signed_pair();
    SpelledElement::Circle {
        layer: layer.0,
        datatype: layer.1,
        radius,
        x: place.0,
        y: place.1,
    }
}

/// Reads the element that a key spells. It is inlined where it is called, so that the fields need not be in memory between
/// the key and what is done with them.
#[inline(always)]
pub fn read_key(key: &[u8]) -> SpelledElement<'_>
    requires { (e : OneElement) × IsSound e × (key.now ≡ key_of e) }
    ensures { (e : OneElement) → IsSound e → key.now ≡ key_of e → Spells result e }
{
    let mut left = Cursor::of(key);
    match left.byte() {
        1 => placement(left),
        2 => text(left),
        3 => rectangle(left),
        4 => polygon(left),
        5 => path(left),
        _ => circle(left),
    }
}
