// Names of the files of tensors.
ghost use Rattle.std.specs.Prelude.{◌≡◌, ◌<◌, length};
ghost use Rattle.tce_job.specs.TensorFiles.{file_of};

use tce_space::FileName;
use tce_spec::Spec;

/// The name of a tensor's file, by the tensor's number.
pub fn file_of(spec: &Spec, t: u8) -> FileName
    requires { t < length spec.now.declarations.tensors }
    ensures { result.bytes ≡ file_of spec.now t }
{
    let mut name = FileName::new();
    name.push_str(spec.tensor(t).name.as_str());
    name.push_str(".tca");
    name
}
