//! What holds of every program.
ghost use Rattle.pooma_run.specs.Served.{IsSound};

use pooma_model::Program;

/// The arrays of a program are cut, and its statements fit them.
///
/// It is called for what it promises, and looks at each array once. It is what a law on windows asks of a program.
pub fn program_is_sound(program: &Program)
    ensures { IsSound program.now }
{
    let _walk = program.walk();
    'arrays: for array in 0..program.arrays() {
        let _shape = program.shape(array);
        let _patches = program.layout(array).patches();
    }
}
