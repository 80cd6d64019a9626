// Services.
ghost use Rattle.std.specs.Prelude.{◌≡◌, map, option_map, IfOk};
ghost use Rattle.idl_rules.specs.Canon.{Canon};
ghost use Rattle.std.specs.Arc.{arc_value};
ghost use Rattle.std.specs.List.{AllByRecursion};
ghost use Rattle.service_core.specs.Served.{IsServed};
ghost use Rattle.service_core.specs.Sheets.{bare_sheet};
ghost use Rattle.service_core.specs.Descriptions.{info_of, description_of};
ghost use Rattle.service_core.specs.Places.{place_of, placed};
ghost use Rattle.service_core.specs.Runs.{AsksGood};
ghost use Rattle.service_core.specs.Renders.{PlacedFits};
ghost use Rattle.call_form.specs.CallOf.{IsObject};
ghost use Rattle.link_port.specs.SoundTrees.{HasUtf8};

use crate::infos::info_object;
use crate::places::place;
use crate::requests::Placed;
use call_form::{Call, SERVICE_TEXT};
use idl_print::text;
use idl_tree::Checked;
use link_port::{List, Memory, Text, Value};
use sheet_form::{Info, Sheet};
use std::alloc::Global;
use std::marker::Model;
use std::sync::Arc;

/// A service of a sheet, which contracts see as what the sheet says.
#[derive(Drop)]
pub struct Service {
    sheet: Arc<Sheet, Global>,
    // The canonical text of each interface of the sheet, in order.
    texts: List<Text>,
}

impl Model for Service {
    ghost use Rattle.std.specs.Prelude.{◌≡◌, map};
    ghost use Rattle.std.specs.Arc.{arc_value};
    ghost use Rattle.std.specs.List.{AllByRecursion};
    ghost use Rattle.idl_rules.specs.Canon.{Canon};
    ghost use Rattle.sheet_form.specs.declared.sheets.Contents.{Contents};
    ghost use Rattle.sheet_form.specs.contracts.sheets.Contents as stored;
    ghost use Rattle.service_core.specs.Served.{IsServed};

    ghost Value = { Contents };

    ghost coded = { stored.the_row.coded };

    ghost view = { λ service. arc_value service.sheet };

    ghost invariant = { λ service. (service.texts ≡ map Canon (arc_value service.sheet).interfaces)
        × AllByRecursion IsServed (arc_value service.sheet).interfaces };
}

impl Service {
    /// The service of a sheet.
    pub fn new(alloc: Global, sheet: Sheet) -> Result<Service, Memory>
        ensures { IfOk result (λ service. service ≡ sheet) }
    {
        match texts_of(alloc, sheet.interfaces()) {
            Ok(texts) => with_texts(alloc, sheet, texts),
            Err(stop) => {
                drop(sheet);
                Err(stop)
            }
        }
    }

    /// A service that has no interface but `org.varlink.service`.
    pub fn bare(alloc: Global) -> Result<Service, Memory>
        ensures { IfOk result (λ service. service ≡ bare_sheet) }
    {
        Service::new(alloc, Sheet::bare(alloc, bare_info(alloc)?)?)
    }

    /// Lends the sheet.
    pub fn sheet(&self) -> &Sheet
        ensures sheet { result.now ≡ self.now }
        ensures served { AllByRecursion IsServed self.now.interfaces }
    {
        &self.sheet
    }

    /// Shares the sheet, without a copy of it. `Memory` is told where no further owner can be counted.
    pub fn shared(&self) -> Result<Arc<Sheet, Global>, Memory>
        ensures sheet { IfOk result (λ sheet. arc_value sheet ≡ self.now) }
        ensures served { AllByRecursion IsServed self.now.interfaces }
    {
        match Arc::try_clone(&self.sheet) {
            Ok(sheet) => Ok(sheet),
            Err(_) => Err(Memory),
        }
    }

    /// Who made the service, and which interfaces it has: the parameters of the reply to `GetInfo`.
    pub fn info(&self, alloc: Global) -> Result<Value, Memory>
        ensures info { IfOk result (λ info. info ≡ info_of self.now) }
        ensures utf8 { IfOk result HasUtf8 }
    {
        Ok(Value::of(info_object(alloc, self)?))
    }

    // The canonical text of the interface of this name, and None exactly where the service has none.
    pub(crate) fn description(&self, interface: &str) -> Option<&str>
        ensures { option_map (λ text. text.now) result ≡ description_of self.now interface.now }
    {
        if interface == "org.varlink.service" {
            return Some(SERVICE_TEXT);
        }
        let place = self.sheet.interface_of(interface)?;
        let text = self.texts.as_slice().get(place as usize)?;
        Some(text.as_str())
    }

    /// Lends the canonical text of the interface of this name, and gives None exactly where the service
    /// has no such interface.
    pub fn describe(&self, interface: &str) -> Option<&[u8]>
        ensures { option_map (λ text. text.now) result ≡ description_of self.now interface.now }
    {
        match self.description(interface) {
            Some(text) => Some(text.as_bytes()),
            None => None,
        }
    }

    /// What a call comes to before a rule runs: the first case that applies answers it, or it asks for a
    /// step. Its parameters are an object.
    pub fn place(&self, alloc: Global, call: &Call) -> Result<Placed, Memory>
        requires { IsObject call.now.parameters }
        ensures placed { IfOk result (λ there. there ≡ placed (place_of self.now call.now)) }
        ensures fits { IfOk result (λ there. PlacedFits call.now there) }
        ensures good { IfOk result (λ there. AsksGood self.now there) }
    {
        let _rules = self.sheet().rules();
        place(alloc, self, call)
    }
}

// The service of a sheet whose interfaces have these texts.
fn with_texts(alloc: Global, sheet: Sheet, texts: List<Text>) -> Result<Service, Memory>
    requires texts { texts ≡ map Canon sheet.interfaces }
    requires served { AllByRecursion IsServed sheet.interfaces }
    ensures { IfOk result (λ service. service ≡ sheet) }
{
    match Arc::new(alloc, sheet) {
        Ok(sheet) => Ok(Service { sheet, texts }),
        Err(failed) => {
            drop((failed, texts));
            Err(Memory)
        }
    }
}

// The canonical text of each interface.
fn texts_of(alloc: Global, interfaces: &[Checked]) -> Result<List<Text>, Memory>
    ensures texts { IfOk result (λ texts. texts ≡ map Canon interfaces.now) }
    ensures served { IfOk result (λ _. AllByRecursion IsServed interfaces.now) }
{
    let mut texts = List::with_room(alloc, interfaces.len() as u64)?;
    for interface in interfaces {
        texts.push(text_of(alloc, interface)?)?;
    }
    Ok(texts)
}

// The canonical text of an interface.
fn text_of(alloc: Global, interface: &Checked) -> Result<Text, Memory>
    ensures text { IfOk result (λ text. text ≡ Canon interface.now) }
    ensures served { IsServed interface.now }
{
    let _tree = interface.tree();
    text(alloc, interface)
}

// Who made the service without a sheet.
fn bare_info(alloc: Global) -> Result<Info, Memory>
    ensures { IfOk result (λ info. info ≡ bare_sheet.info) }
{
    let vendor = Text::of(alloc, "Varlink")?;
    let product = Text::of(alloc, "varlink")?;
    let version = Text::of(alloc, "1")?;
    let url = Text::of(alloc, "https://varlink.org")?;
    Ok(Info {
        vendor,
        product,
        version,
        url,
    })
}
