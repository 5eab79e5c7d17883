ghost use Rattle.std.specs.Prelude.{◌≡◌, ℕ, ◌≤◌, List, IfOk, IfErr};
ghost use Rattle.fer_outside.specs.Causes.{Rose};
ghost use Rattle.litmus_reader.specs.LitmusText.{IsLitmusText};
ghost use Rattle.model_reader.specs.ModelText.{IsModelText};
ghost use Rattle.model_library.specs.ShippedModels.{shipped_text};
ghost use Rattle.witness_replay.specs.CrashFiles.{IsCrashText};
ghost use Rattle.proof_log.specs.LogFiles.{IsLogText};
ghost use Rattle.command_line.specs.declared.commands.ModelName.TheVariants.{File};
ghost use Rattle.ferrite_run.specs.Reading.{IsNoLitmus, IsNoModel, IsNoCrash, IsNoLog, OnLitmus, OnModel, OnCrash, OnLog};
ghost use Rattle.ferrite_run.specs.Yields.{IsLitmusOf, IsModelOf, IsCrashOf, IsLogOf};
ghost use Rattle.ferrite_run.specs.Done.{Tells};
ghost use Rattle.ferrite_run.specs.Saying.{StopsWith};

use crate::fetching::fetch;
use crate::saying::{Stop, stopped};
use command_line::{FileName, ModelName};
use fer_events::Crash;
use fer_outside::Library;
use litmus_reader::LitmusFault;
use litmus_syntax::Litmus;
use model_library::ShippedModel;
use model_reader::{Model, ModelFault};
use proof_log::{Log, LogFault};
use report::{Outcome, Role};
use std::alloc::Global;
use witness_replay::CrashFault;

/// The test that the bytes of a litmus file are.
fn read_litmus(alloc: Global, bytes: &[u8]) -> Result<Litmus, Stop>
    ensures read { IfOk result (λ litmus. IsLitmusText bytes.now litmus) }
    ensures unread { IfErr result (StopsWith (Tells (IsNoLitmus bytes.now))) }
{
    match litmus_reader::read(alloc, bytes) {
        Ok(litmus) => Ok(litmus),
        Err(LitmusFault::Refused { line, kind }) => {
            let kind = kind.number();
            Err(stopped(alloc, &Outcome::LitmusRefused { line, kind }))
        }
        Err(LitmusFault::OutOfMemory) => Err(Stop::OutOfMemory),
    }
}

/// The model that the bytes of a model file are.
fn read_model(alloc: Global, bytes: &[u8]) -> Result<Model, Stop>
    ensures read { IfOk result (λ model. IsModelText bytes.now model) }
    ensures unread { IfErr result (StopsWith (Tells (IsNoModel bytes.now))) }
{
    match model_reader::read(alloc, bytes) {
        Ok(model) => Ok(model),
        Err(ModelFault::Refused { line, kind }) => {
            let kind = kind.number();
            Err(stopped(alloc, &Outcome::ModelRefused { line, kind }))
        }
        Err(ModelFault::OutOfMemory) => Err(Stop::OutOfMemory),
    }
}

/// The crash that the bytes of a crash file are.
fn read_crash(alloc: Global, bytes: &[u8]) -> Result<Crash, Stop>
    ensures read { IfOk result (λ crash. IsCrashText bytes.now crash) }
    ensures unread { IfErr result (StopsWith (Tells (IsNoCrash bytes.now))) }
{
    match witness_replay::read(alloc, bytes) {
        Ok(crash) => Ok(crash),
        Err(CrashFault::BadText) => Err(stopped(alloc, &Outcome::CrashUnread)),
        Err(CrashFault::OutOfMemory) => Err(Stop::OutOfMemory),
    }
}

/// The test in the litmus file of this name.
pub fn litmus_of<L: Library>(
    alloc: Global,
    name: &FileName,
    library: &mut L,
) -> Result<Litmus, Stop>
    ensures read { IfOk result (λ litmus. IsLitmusOf (L.held library.old) name.now litmus) }
    ensures unread { IfErr result (StopsWith (OnLitmus (L.held library.old) (λ other. Rose (L.faults library.old other) (L.faults library.new other)) name.now (λ _ _. ⊥))) }
    ensures stays { L.held library.new ≡ L.held library.old }
    ensures never_falls { (other : List ℕ) → L.faults library.old other ≤ L.faults library.new other }
{
    let bytes = fetch(alloc, Role::LitmusFile, name, library)?;
    let litmus = read_litmus(alloc, bytes.as_slice())?;
    Ok(litmus)
}

/// The model in the file of this name.
fn model_in<L: Library>(alloc: Global, name: &FileName, library: &mut L) -> Result<Model, Stop>
    ensures read { IfOk result (λ model. IsModelOf (L.held library.old) (File name.now) model) }
    ensures unread { IfErr result (StopsWith (OnModel (L.held library.old) (λ other. Rose (L.faults library.old other) (L.faults library.new other)) (File name.now) (λ _ _. ⊥))) }
    ensures stays { L.held library.new ≡ L.held library.old }
    ensures never_falls { (other : List ℕ) → L.faults library.old other ≤ L.faults library.new other }
{
    let bytes = fetch(alloc, Role::ModelFile, name, library)?;
    let model = read_model(alloc, bytes.as_slice())?;
    Ok(model)
}

/// A model that comes with Ferrite.
pub fn shipped_model(alloc: Global, shipped: ShippedModel) -> Result<Model, Stop>
    ensures read { IfOk result (λ model. IsModelText (shipped_text shipped) model) }
    ensures unread { IfErr result (StopsWith (Tells (IsNoModel (shipped_text shipped)))) }
{
    let model = read_model(alloc, shipped.text().as_bytes())?;
    Ok(model)
}

/// The model that a command names.
pub fn model_of<L: Library>(alloc: Global, name: &ModelName, library: &mut L) -> Result<Model, Stop>
    ensures read { IfOk result (λ model. IsModelOf (L.held library.old) name.now model) }
    ensures unread { IfErr result (StopsWith (OnModel (L.held library.old) (λ other. Rose (L.faults library.old other) (L.faults library.new other)) name.now (λ _ _. ⊥))) }
    ensures stays { L.held library.new ≡ L.held library.old }
    ensures never_falls { (other : List ℕ) → L.faults library.old other ≤ L.faults library.new other }
{
    match name {
        ModelName::Shipped(shipped) => {
            let model = shipped_model(alloc, *shipped)?;
            Ok(model)
        }
        ModelName::File(name) => {
            let model = model_in(alloc, name, library)?;
            Ok(model)
        }
    }
}

/// The crash in the crash file of this name.
pub fn crash_of<L: Library>(alloc: Global, name: &FileName, library: &mut L) -> Result<Crash, Stop>
    ensures read { IfOk result (λ crash. IsCrashOf (L.held library.old) name.now crash) }
    ensures unread { IfErr result (StopsWith (OnCrash (L.held library.old) (λ other. Rose (L.faults library.old other) (L.faults library.new other)) name.now (λ _ _. ⊥))) }
    ensures stays { L.held library.new ≡ L.held library.old }
    ensures never_falls { (other : List ℕ) → L.faults library.old other ≤ L.faults library.new other }
{
    let bytes = fetch(alloc, Role::CrashFile, name, library)?;
    let crash = read_crash(alloc, bytes.as_slice())?;
    Ok(crash)
}

/// The log that the bytes of a file are.
fn read_log(alloc: Global, bytes: &[u8]) -> Result<Log, Stop>
    ensures read { IfOk result (λ log. IsLogText bytes.now log) }
    ensures unread { IfErr result (StopsWith (Tells (IsNoLog bytes.now))) }
{
    match proof_log::read(alloc, bytes) {
        Ok(log) => Ok(log),
        Err(LogFault::Refused { line, kind }) => {
            let kind = u32::from(kind.number());
            Err(stopped(alloc, &Outcome::LogRefused { line, kind }))
        }
        Err(LogFault::OutOfMemory) => Err(Stop::OutOfMemory),
    }
}

/// The log in the file of this name.
pub fn log_of<L: Library>(alloc: Global, name: &FileName, library: &mut L) -> Result<Log, Stop>
    ensures read { IfOk result (λ log. IsLogOf (L.held library.old) name.now log) }
    ensures unread { IfErr result (StopsWith (OnLog (L.held library.old) (λ other. Rose (L.faults library.old other) (L.faults library.new other)) name.now (λ _ _. ⊥))) }
    ensures stays { L.held library.new ≡ L.held library.old }
    ensures never_falls { (other : List ℕ) → L.faults library.old other ≤ L.faults library.new other }
{
    let bytes = fetch(alloc, Role::LogFile, name, library)?;
    let log = read_log(alloc, bytes.as_slice())?;
    Ok(log)
}
