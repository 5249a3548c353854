//! Drawn scripts that run to their end. What they write is taken from a second reading of the language.
use crate::drawn::first_otherwise;
use pooma_top::Status;

// A hundred scripts, of every form of statement, updater, stencil and reduction.
const DONE: &str =
    "layout A (0:2) cuts ((1,2)) internal (0);field B on A faces constant 0, reflect;B = 1 * index(0) - 4;
stencil Y lower (1) upper (0) = 100;B[0:1:2] -= Y(B[1:0:-1]);repeat 2;block;end;print B[0:2];
> -104 -3 -2;

brick E (2:5);brick F (1:1,-3:1);F = 10 * index(0) + 4 * index(1) - 0;
layout M (-1:2,-3:0) blocks (3,2) internal (1,2) external (1,0);scalar\tx = bitor(abs(F)) # c;
field K on M faces constant -0, extrapolate, periodic, reflect;K  = 3 * index(0) + 1 * index(1) - 2;
K += min(0, ((x) <= (7)) >= ((1) + (x)));brick G (-3:1,1:8,1:4);repeat 3;F += G[-3:-3:1,2:6:1,1];end;print E[2:5];
print F[1:1,-3:1];print x;print K[-2:3,-3:0];
> 0 0 0 0;0;4;8;12;16;28;0 -2 1 4 7 10;0 -1 2 5 8 11;0 0 3 6 9 12;0 1 4 7 10 13;

layout B (1:1,0:0,2:2) blocks (1,1,1) internal (1,1,0);
field L on B faces constant 4611686018427387904, reflect, antireflect, periodic, reflect, constant -1;
L = (10 * index(0) + 3 * index(1) + 2 * index(2)) * index(1) - 2;layout V (2:4) cuts ((4));L = 100;scalar z = max(0);
scalar z = -(L[1,0,2]);repeat 3;scalar x = min(where(L[1,0:0:-1,2:2:-1], 10, 100));repeat 2;end;end;print L[1:1,0:0,2:2];
print z;print x;
> 100;-100;10;

brick s (1:2,0:2);s = 3 * index(0) + 10 * index(1) - 2;layout S (0:2) cuts (()) external (2);
layout  H (0:1,-1:0) cuts ((),(0)) internal (2,1)\r;
stencil A lower (0,1) upper (0,1) = max(@(0,-1), @(0,-1)) - min(@(0,1), @(0,0));repeat 2;
s[1:1,2] = where(s[2:2,1], index(0), s[1:2:2,2]);s[2:2,0:0] = where(A(s[1:1:2,0:2]) > 0, s[2:2,0:0], 1);s[2,2] *= s[1,1];end;
print s[1:2,0:2];
> -2 1;8 11;0 1344;

layout E (0:2,-1:2,-2:0) cuts ((1),(0,2),()) internal (1,1,2) external (0,2,1);
layout T (-1:1) cuts ((0)) internal (2) external (0);field D on T faces extrapolate, constant 7;D = 10 * index(0) - 3;
scalar y = sum((((3) != (D[1:-2:-2])) > ((D[-1:0:1]) / (D[0:-1:-1]))) > (where(index(0), D[-1:1:2], index(0)) / (7) + (0)));
stencil Z lower (0,0,0) upper (0,1,1) = @(0,1,0) + min(@(0,0,0), 3);scalar x = sum((abs(2)) <= (D[1]));
scalar z = where(D[1] | x, y < 1, abs(4294967296));print D[-1:1];print y;print x;print z;
> -3 7 17;1;1;0;

brick G (-1:1,-1:0);brick L (-1:2);L = (3 * index(0)) * index(0) - 3;
stencil s lower (1,0) upper (1,0) = ((@(1,0)) & (@(1,0))) == (9223372036854775807 > @(1,0));scalar z = any(s(G));repeat 3;
print G[-1:-1:2,0];end;print L[-1:2];
> 0;0;0;-3 0 9 24;

layout S (2:4) blocks (3) internal (1) external (1);layout Y (0:3,2:5) cuts ((2),()) internal (0,1);array W on Y;
W = 4 * index(0) + 2 * index(1) - 3;print W[0,3];W  = W\r;repeat 2;scalar V = bitand(4294967296);
W[2:2,2:2] = where(-(W[2:2,5:5:-1]), -(W[1:1:1,4:4:3]), (W[0:0:-1,5:5]) / (1));scalar t = all(W);print t;end;print W[0:3,2:5];
> -1;1;1;-3 1 -5 9;-1 3 7 11;1 5 9 13;3 7 11 15;

layout B (1:3,-1:1) cuts ((2,3),()) external (0,1);
stencil L lower (0,1) upper (0,0) = ((abs(@(0,-1))) >= (-(@(0,0)))) / (@(0,-1) != (100) & (5));
field C on B faces constant 7, antireflect, extrapolate, extrapolate;C = 3 * index(0) + 2 * index(1) - 1;
C[1:1,1:1:-1] -= C[2:2:-2,-1:-1:-1] != 3;scalar y = sum(abs(C));C[1,0:1:1] = -(4611686018427387904);
C[2:1:-1,-1:-1:1] += where(L(C[1:2:1,1:0:-1]) > 0, C[2:1:-1,-1:-1:1], 1);scalar y = C[1,1] / C[1,-1];print C[1:3,-2:2];
> 4611686018427387900 4 3;-2 4 5;-4611686018427387904 4 7;-4611686018427387904 6 9;-4611686018427387904 8 11;

layout U (-2:-1) blocks (2) external (1);field K on U faces constant 9223372036854775806, constant -0;
K = (2 * index(0)) * index(0) - 4;brick D (1:4);D = (10 * index(0)) * index(0) - 2;D = ((K[-3:0:1]) > (K[0:-3:-1])) % (10);
print K;field L on U faces periodic, antireflect;L = 4 * index(0) - 2;K = abs(1);scalar z = count((L[-1]) < (554381730398));
print K[-3:0];print D[1:4];print L[-3:0];
> -4 -2;9223372036854775806 1 1 0;1 0 1 0;2 -2 2 -2;

stencil M lower (0,1) upper (1,1) = where(@(1,0) < @(0,1), @(1,1), abs(@(1,-1)));
layout V (-1:1,-1:1) blocks (1,1) external (2,1);field G on V faces extrapolate, constant -10, extrapolate, periodic;
G = 10 * index(0) + 2 * index(1) - 5;scalar y = bitand(M(G[1:-1:-2,-1:2]));scalar z = max(M(G[-1:1:1,1:-1:-1]));
print G[-3:3,-2:2];print z;
> -27 -17 -7 3 13 -10 -10;-25 -15 -5 5 15 -10 -10;-23 -13 -3 7 17 -10 -10;-21 -11 -1 9 19 -10 -10;-25 -15 -5 5 15 -10 -10;19;

layout toolong (0:1) blocks (2) internal (1);layout I (-2:1) cuts ((0)) external (0);brick Z (-2:-1,-1:1);
Z = 3 * index(0) + 1 * index(1) - 1;Z[-2:-1,0:0:2] *= (Z[-2:-1,0:0:-2]) + (5);repeat 3;scalar z = min(0 == Z[-2:-1:1,-1:1]);
repeat 1;end;end;Z[-1:-1:2,-1:-1:2] -= z;print Z[-2:-1,-1:1];
> -1 2;0 24;1 4;

layout J (1:3,-1:2,-1:0) blocks (3,2,1) external (1,1,0);
field E on J faces constant 1, reflect, extrapolate, periodic, antireflect, antireflect;
E = (1 * index(0) + 1 * index(1) + 3 * index(2)) * index(2) - 4;stencil toolong lower (0) upper (0) = @(0);block;print E;
> -4 -4 -4;-4 -4 -4;-4 -4 -4;-4 -4 -4;-1 0 1;0 1 2;1 2 3;2 3 4;

layout I (1:3,0:2) blocks (3,1) internal (0,1) external (1,1);
stencil S lower (0,0) upper (0,1) = max(@(0,1), @(0,0)) - min(@(0,1), @(0,1));
field X on I faces extrapolate, antireflect, extrapolate, constant -4611686018427387904;
X = (4 * index(0) + 1 * index(1)) * index(1) - 1;X[1:1:3,0:0:1] += S(X[4:4:-1,0:1]);
scalar s = max(where(S(X[4:4:-1,-1:2:2]) > 0, X[1:1,1:1], 1));X[2:3:3,0] = (index(0)) <= (4294967296);
X[2:2,1:2]\t= S(X[3:3,2:0:-1]) # c;X -= X >= X;print X[0:4,-1:3];print s;
> 40 15 -10 -11 11;14 7 0 -2 2;-12 -1 10 7 -7;-4 2 8 18 -18;
> -4611686018427387904 -4611686018427387904 -4611686018427387904 -4611686018427387904 -4611686018427387904;0;

stencil G lower (0,0,1) upper (0,1,0) = where(@(0,1,-1) < @(0,1,0), @(0,0,-1), abs(@(0,1,0)));brick C (1:4,1:3,0:2);
C = 3 * index(0) + 1 * index(1) + 2 * index(2) - 1;scalar x = any(G(C[1:2:1,1:2,0:2:2]) + index(0));
scalar t = any(G(C[2:5:2,1:3:2,2:0:-2]) + index(0));repeat 3;end;print C[1:4,1:3,0:2];
> -1 2 5 8;0 3 6 9;1 4 7 10;1 4 7 10;2 5 8 11;3 6 9 12;3 6 9 12;4 7 10 13;5 8 11 14;

layout Y (1:6) blocks (1) internal (1);field V on Y faces extrapolate, constant -630933365026;
field X on Y faces reflect, constant 3;X = 4 * index(0) - 2;X[4:3:-2] -= V[3:3:1] + V[2:2:1];X[5] = 0;repeat 3;repeat 3;
scalar y = sum(X);scalar t = bitand(((V[1]) >= (y | 0)) * (3));end;end;print V[1:6];print X[1:6];print y;print t;
> 0 0 0 0 0 0;-2 2 6 10 0 18;34;0;

stencil J lower (1,0) upper (0,0) = 5;brick V (0:2,0:1);V = 10 * index(0) + 2 * index(1) - 4;
layout T (0:1,-2:0) cuts ((1),(0)) internal (2,1);V -= (100) != (V);repeat 3;scalar y = bitor(V[2,1]);
V[0:1,1:0:-2] = max(J(V[2:0:-1,0:1:2]), 3);end;print V[0:2,0:1];print y;
> -5 5 15;5 5 17;17;

layout Z (1:5,-1:2) cuts ((2,5),(0)) external (1,0);layout V (-2:2,-1:1) blocks (1,3) internal (0,1);
layout s (-3:-2,-3:-1,2:5) blocks (1,3,3) internal (2,1,2) external (0,1,0);brick Y (-2:-1,1:5);
Y = 10 * index(0) + 3 * index(1) - 1;Y[-2:-1:1,1] = -(Y[-1:-2:-1,2]);repeat 3;
scalar t = all((Y | Y) - (min(Y, where(Y, 9223372036854775806, Y))));
scalar y = count(min(Y[-1:-2:-1,1:5], 4611686018427387904) % (10) >= (525932902918));Y[-2:-2:-1,4] *= Y[-2:-2:-1,1];end;
print Y[-2:-1,1:5];print t;
> -12 -2;2 12;5 15;-13824 18;11 21;0;

brick t (1:4);t = (1 * index(0)) * index(0) - 2;stencil Y lower (0) upper (1) = (@(0)) < (@(1));
layout Z (-2:0) cuts ((0)) internal (0);scalar y = max(max(Y(t[3:1:-1]), 3));repeat 3;t[1:3:3] -= Y(t[4:3:-1]);print t;end;
print t[1:4];print y;
> -2 -1 2 7;-2 -1 2 7;-2 -1 2 7;-2 -1 2 7;3;

brick L (-1:1,-1:2);L = 2 * index(0) + 3 * index(1) - 2;stencil Z lower (1,1) upper (0,0) = @(0,-1);
layout C (0:2,-1:1,-1:1) blocks (3,3,3);repeat 3;scalar x = sum(Z(L[-1:1,-1:2]));
scalar t = min((index(0)) + (L[1:1:-1,-1]) + -(L[0:0:1,0]) & 7);end;print L[-1:1,-1:2];
> -2 0 2;1 3 5;4 6 8;7 9 11;

layout  I (1:3) cuts ((2,3)) external (1);field D on I faces constant 4611686018427387904, extrapolate;
D = (2 * index(0)) * index(0) - 0;stencil H lower (0) upper (1) = min(9223372036854775807, @(1));
D[2:2:2] -= max(H(D[0:1]), 3);array Z on I;Z = (10 * index(0)) * index(0) - 1;repeat 2;Z[2] = Z[1];end;print D[0:4];
print Z[0:4];
> 4611686018427387904 0 -1 8 17;0 -1 -1 39 0;

layout S (-1:-1,2:3,2:5) cuts ((),(),(5)) internal (0,0,0) external (0,0,0);
field toolong on S faces extrapolate, extrapolate, periodic, extrapolate, extrapolate, constant -7;
toolong = 1 * index(0) + 1 * index(1) + 10 * index(2) - 3;brick X (-1:2);X = 1 * index(0) - 1;repeat 3;
scalar s = count(min(X[-1], toolong[-1,3,5]));end;print toolong[-1:-1,2:3,2:5];print s;
> -3;-2;7;8;17;18;27;28;1;

brick\tK (1:3,-2:1) # c;K = 10 * index(0) + 1 * index(1) - 2;stencil B lower (1,0,0) upper (1,1,1) = (@(0,1,1)) >= (@(-1,0,1));
stencil H lower (0,1) upper (1,1) = where(@(1,1) < @(1,-1), @(1,1), abs(@(1,1)));K[1:3:3,0:0:-2] += H(K[2:1:-1,-1:1]);block;
print K[1:3,-2:1];
> -2 8 18;-1 9 19;1 10 20;1 11 21;

brick D (0:2);D = (2 * index(0)) * index(0) - 2;layout K (-3:-1) blocks (1) internal (1) external (1);
field  E on K faces antireflect, periodic\r;E = 10 * index(0) - 2;scalar  t = D[1]\r;E[-2] += E[-2];D *= index(0);print E[-4:0];
> 2 -2 16 18 -2;

stencil D lower (1,1) upper (1,0) = 10;brick M (1:3,1:2);M = 4 * index(0) + 2 * index(1) - 3;
M[3:3:-2,2:2:3] = 2 * D(M[1:3,1:2]);M[1,1] = abs(M[2,2]);repeat 3;M[2:2:-1,1:1:1]  = D(M);
M[3,2:2:3] *= (M[3,1:1:-1]) & (681805301705) * -(index(0));M[1:3:3,1:1:2] = D(M);repeat 2;end;end;print M[1:3,1:2];
> 10 10 5;-1 3 0;

brick E (-1:2,-2:0,1:4);E = 2 * index(0) + 1 * index(1) + 1 * index(2) - 2;layout C (1:4,-1:1) blocks (3,2);
stencil M lower (0,1) upper (0,0) = (@(0,-1) + @(0,0)) / 2;
scalar x = bitand(-(E[0:2,-1:0,1:2]) & max(E[1:-1:-1,0:-1:-1,4:3:-1], E[-1:1,0:-2:-2,1:6:3]));
field Z on C faces reflect, periodic, periodic, antireflect;Z = 1 * index(0) + 1 * index(1) - 4;
Z[1:2,1:1] += M(E[0:-1:-1,-2:-1,1]);scalar y = min(E[-1:2,-2:0,1:4]);E *= -(-(y));print E[-1:2,-2:0,1:4];print y;
> 4 0 -4 -8;2 -2 -6 -10;0 -4 -8 -12;2 -2 -6 -10;0 -4 -8 -12;-2 -6 -10 -14;0 -4 -8 -12;-2 -6 -10 -14;-4 -8 -12 -16;
> -2 -6 -10 -14;-4 -8 -12 -16;-6 -10 -14 -18;-2;

stencil G lower (1,1) upper (0,0) = max(@(-1,-1), @(-1,0)) - min(@(0,-1), @(-1,-1));
layout E (1:3,-2:0) cuts ((2,3),(-1,0)) internal (0,2);layout F (-2:0) blocks (2) internal (2);array D on E;
D = 10 * index(0) + 3 * index(1) - 5;D[1:2:2,0:0] = 2 * G(D[2:3,-1:-2:-1]);scalar x = bitor(abs(-(0)));print D;
print D[1:3,-2:0];print x;
> -5 5 15;-2 8 18;0 11 21;-5 5 15;-2 8 18;0 11 21;0;

brick H (0:2,-1:1);H\t= (2 * index(0) + 3 * index(1)) * index(1) - 2 # c;
stencil s lower (1,0) upper (0,0) = @(-1,0) + @(0,0) - 2 * @(-1,0);H[2:2:-2,-1:-1] = s(H[0:1,-1:-1]);
scalar x = bitand(s(H[1:0:-1,1:0:-1]));repeat 2;
scalar t = where(H[2,-1], H[1,0], H[2,0]) * (0) - (H[1,0]) != (max(H[2,0], H[0,-1])) + ((H[0,0]) - (H[0,-1]));end;
print H[0:2,-1:1];print x;print t;
> -2 -2 0;1 3 5;10 14 18;-4;1;

stencil M lower (0,0,0) upper (1,1,0) = (abs(@(1,0,0))) <= ((@(1,1,0) > 5) + (100));brick F (0:1,0:2,-1:0);
F = (2 * index(0) + 4 * index(1) + 3 * index(2)) * index(1) - 5;F[1:1:3,1:0:-1,-1:0:1] -= M(F[1:0:-1,0:2,-1:0]);
F[0:0:1,0:1:1,-1:0] = M(F[0:1,0:2,0:-1:-1]);print F[0:1,0:2,-1:0];
> 1 -6;1 0;11 15;1 -6;1 3;17 21;

stencil V lower (1,0) upper (0,1) = @(-1,0);layout X (-1:1,-2:-1) blocks (1,2) internal (2,1) external (2,2);
brick toolon (-2:0,0:2);toolon = 10 * index(0) + 1 * index(1) - 0;scalar y = all(2 * V(toolon));
scalar x = min((-(toolon[0:-3:-2,1]) & toolon[-2:1:2,0] % 4611686018427387904) > (-(toolon[-2,2:1:-1])));
print toolon[-2:0,0:2];print y;print x;
> 0 10 20;1 11 21;2 12 22;0;1;

stencil A lower (1) upper (0) = @(-1);brick X (-2:1);X = 1 * index(0) - 5;X[-1:-1] -= A(X[0:1:1]);block;print X[-2:1];
> -5 -1 -3 -2;

brick S (-2:0,0:2);S = 4 * index(0) + 3 * index(1) - 1;brick K (-1:0,-2:0);K = 4 * index(0) + 1 * index(1) - 4;
stencil C lower (0,0) upper (1,0) = -(@(1,0));repeat 3;end;repeat 3;S[-2:-2,0:2] -= C(S[-1:-2:-1,0:2]);S[-2,2] -= S[0,0];end;
print K[-1:0,-2:0];
> -4 0;-3 1;-2 2;

brick T (-1:2,-1:1);T = 4 * index(0) + 4 * index(1) - 2;layout B (-2:-1) cuts (()) external (2);array D on B;
field  Z on B faces antireflect, reflect;Z = (10 * index(0)) * index(0) - 4;repeat 2;T = T;T[1,1] = 10;end;print Z[-4:1];
> -6 4 -4 6 6 -4;

layout Z (1:3,-1:2) blocks (1,2) external (0,0);brick T (-2:0,1:2);T = 2 * index(0) + 10 * index(1) - 4;
stencil  C lower (1,0) upper (1,1) = @(1,0) + @(0,1) - 2 * @(0,1) # c;T[-2:0:3,2:2:-2] = C(T);repeat 1;print T;end;
print T[-2:0,1:2];
> -4 -2 0;-8 8 10;-4 -2 0;-8 8 10;

brick C (-1:2,-2:-1);C = 4 * index(0) + 10 * index(1) - 4;layout A (-1:0,-2:1) cuts ((0),()) internal (1,2) external (2,0);
layout M (-1:1,0:2,-2:0) blocks (3,1,1) internal (0,0,0) external (2,0,0);C = C <= 0;C += abs(C);
layout D (-2:0,-1:1) blocks (2,3) internal (0,2) external (2,1);stencil S lower (1,0) upper (0,1) = 0;
C[1:0:-1,-1:-1:1] = max(S(C[-1:1:1,-2:-1:1]), 3);scalar s = any(where(S(C[2:0:-2,-1:-2:-1]) > 0, C[0:0,-1:-1], 1));
print C[-1:2,-2:-1];print s;
> 2 2 0 0;0 3 3 0;1;

brick t (1:2);t = (10 * index(0)) * index(0) - 0;
stencil Y lower (0) upper (0) = max(((@(0)) * (10)) >= (-(@(0))), ((3) + (@(0))) | ((10) + (@(0))));
scalar y = all(Y(t[2:2:-2]));t[2] *= abs(y);t[1:2] = Y(t);print t[1:2];print y;
> 11 29;1;

stencil W lower (0,0) upper (0,0) = (@(0,0) + @(0,0)) / 2;layout K (1:2,0:1) blocks (2,2) internal (2,1) external (0,2);
field  A on K faces periodic, constant -1, periodic, constant 1;A = (2 * index(0) + 10 * index(1)) * index(0) - 5;
A[1:1,0:1] -= W(A[1:1,0:1]);repeat 3;end;print A[1:2,-2:3];
> 0 -3;0 7;0 -3;0 7;1 1;1 1;

stencil V lower (1,1) upper (0,0) = (abs(@(-1,-1) >= @(0,-1))) & (-((@(-1,0)) == (@(-1,-1))));brick X (-1:0,1:3,0:2);
X = 4 * index(0) + 2 * index(1) + 10 * index(2) - 1;brick T (1:3,0:1);T = (4 * index(0) + 4 * index(1)) * index(0) - 0;
repeat 2;print  X[0,3,0:1] # c;end;T[1:2,0:0] -= V(X[0,3:1:-1,0:2:2]);print X[-1:0,1:3,0:2];
> 7 17;7 17;-1 3;1 5;3 7;9 13;11 15;13 17;19 23;21 25;23 27;

layout E (0:2,0:2) blocks (1,2);stencil M lower (1,0) upper (0,1) = where(@(0,1) < @(-1,0), @(-1,0), abs(@(-1,0)));
stencil C lower (1,1,1) upper (0,0,0) = max(@(0,-1,0), @(0,-1,0)) - min(@(0,0,-1), @(0,-1,0));array J on E;
J = (1 * index(0) + 3 * index(1)) * index(1) - 3;repeat 3;scalar z = sum(J[1,2:0:-2]);J[1:1,1:2] = M(J[2:0:-2,0:2]);
J[2,0:2] -= (J[1,0:2:1]) % (J[1,2:0:-1]);end;repeat 2;end;print J[0:2,0:2];
> -3 -3 0;0 1 2;9 2 7;

stencil Y lower (1,0) upper (0,1) = (@(-1,0)) - (@(-1,0));brick Z (-1:1,-2:-1);Z = 10 * index(0) + 2 * index(1) - 4;
scalar z = all(Y(Z));Z[0:1,-1:-1:-2] += where(Y(Z) > 0, Z[0:1,-1:-1:-2], 1);print Z[-1:1,-2:-1];print z;
> -4 6 16;-2 9 19;0;

brick V (0:2,-1:0);V = (4 * index(0) + 4 * index(1)) * index(0) - 4;
stencil U lower (0,0) upper (0,1) = @(0,0) + @(0,0) - 2 * @(0,1);scalar z = any(U(V));V[0:2,-1:0:2] += V[0:2,0:0:1];
print V[0:2,-1:0];print z;
> -8 4 32;-4 4 20;1;

layout M (-1:3) blocks (1) internal (1);field D on M faces periodic, periodic;D = 4 * index(0) - 2;layout J (1:2) blocks (1);
D = D;brick C (2:5);print C;repeat 3;scalar t = bitor(C[5:2:-1]);print C[2];D[0] = D[-1];end;print D[-1:3];print t;
> 0 0 0 0;0;0;0;-2 -2 6 10 14;0;

brick Y (1:4,-2:1);Y = 3 * index(0) + 3 * index(1) - 3;stencil t lower (1,0) upper (0,0) = (@(-1,0)) <= (0);
scalar z = min(where(t(Y[4:3:-1,-2:2:3]) > 0, Y[2:2,-1:1:2], 1));scalar\tx = min(t(Y[2:4,-2:1:2]))\r;repeat 3;end;
scalar x = ((where(Y[4,-1], Y[2,1], Y[1,-2])) & ((Y[1,-2]) <= (Y[1,-1]))) <= (abs((100) >= (0)));print Y[1:4,-2:1];print x;
> -3 0 3 6;0 3 6 9;3 6 9 12;6 9 12 15;1;

stencil S lower (1,0) upper (0,1) = @(-1,0) + @(0,0) - 2 * @(-1,0);brick J (1:3,-2:-1);J = 4 * index(0) + 10 * index(1) - 3;
scalar s = max(S(J[1:3,-2:-1]));print J;print J[1:3,-2:-1];print s;
> -3 1 5;7 11 15;-3 1 5;7 11 15;4;

brick U (0:2);U = (4 * index(0)) * index(0) - 3;brick L (1:2,-1:1);L = 2 * index(0) + 2 * index(1) - 1;repeat 2;repeat 1;
U[0] = 2 > U[2];scalar s = count((10) != (L[1:2:1,-1:1]));end;end;print U[0:2];print s;
> 0 1 13;6;

stencil U lower (0,1) upper (0,1) = @(0,1) < @(0,-1);brick D (1:2,1:3);D = (4 * index(0) + 4 * index(1)) * index(0) - 3;
D[2:2:2,2:3:2] = U(D[1:1,1:3:1]);scalar t = bitand(U(D[2:1:-2,3:1:-1]));print D[1:2,1:3];
> -3 1;-3 0;-3 9;

brick  V (0:3);layout s (-2:0,-1:1,0:2) cuts ((-1),(0,1),(1,2)) external (0,2,2);
layout Y (-1:0,1:4) cuts ((),()) internal (2,2) external (0,2);field G on Y faces periodic, reflect, reflect, reflect;
G = 4 * index(0) + 4 * index(1) - 3;repeat 3;V = index(0) > 592527939621;end;print V[0:3];print G[-1:0,-1:6];
> 0 0 0 0;1 5;-3 1;-3 1;1 5;5 9;9 13;9 13;5 9;

stencil T lower (0,1) upper (0,0) = max(@(0,0), @(0,-1)) - min(@(0,-1), @(0,-1));
layout Z (-1:2,-2:0) blocks (1,3) external (2,0);brick M (-1:0,-1:1);M = 1 * index(0) + 3 * index(1) - 0;
M[-1:0:1,-1:-1:1] = T(M[-1:0,1:-1:-2]);repeat 2;end;print M[-1:0,-1:1];
> 0 0;3 4;6 7;

stencil S lower (0) upper (0) = @(0);brick t (-2:0);t = 4 * index(0) - 4;t[-2:-1:2] = S(t[-2:-2:-1]);
scalar x = where(t[0], t[-1], t[0]);repeat 3;block;t[-1:-1] = S(t[0:0:-2]);t[-2:-1] += S(t[-2:-1:1]);t += t;end;print t[-2:0];
print x;
> -256 64 32;0;

brick J (-1:1,1:3,0:1);J = 2 * index(0) + 10 * index(1) + 10 * index(2) - 3;brick B (1:3,1:4);
stencil t lower (0,1) upper (1,0) = (@(0,-1) + @(1,0)) / 2;scalar x = count(where(t(B[3:1:-1,3:1:-1]) > 0, B[1:2:1,2:3], 1));
brick U (-1:0,1:3);U = (10 * index(0) + 1 * index(1)) * index(1) - 2;repeat 2;U[-1,2:3:1] *= B[2,2:1:-1];end;print B[1:3,1:4];
print x;print U[-1:0,1:3];
> 0 0 0;0 0 0;0 0 0;0 0 0;4;-2 -2;0 9;0 22;

stencil D lower (1,1) upper (0,1) = @(-1,1) + @(0,1) - 2 * @(0,-1);brick B (0:2,1:3);
layout W (-1:0,-1:1,-1:1) blocks (2,1,2) external (2,1,0);
field s on W faces antireflect, antireflect, reflect, constant -5, antireflect, constant 5;
s = 1 * index(0) + 3 * index(1) + 4 * index(2) - 4;repeat 2;s[0,0,-1] = 7;B[2,2:2:1] += index(0);
B[0:1:3,3:2:-2] -= D(B[1:2:1,1:3:1]);end;print B[0:2,1:3];print s[-3:2,-2:2,-1:1];
> 0 0 0;0 0 0;0 0 0;3 4 -4 -3 3 4;3 4 -4 -3 3 4;-7 1 -1 7 -7 1;-3 -2 2 3 -3 -2;-5 -5 -5 -5 -5 -5;-1 0 0 1 -1 0;-1 0 0 1 -1 0;
> -4 -3 3 4 -4 -3;-7 -6 6 7 -7 -6;-5 -5 -5 -5 -5 -5;-5 -4 4 5 -5 -4;-5 -4 4 5 -5 -4;-8 -7 7 8 -8 -7;-11 -10 10 11 -11 -10;
> -5 -5 -5 -5 -5 -5;

stencil L lower (1,0) upper (0,1) = @(0,0);brick Y (-1:2,-1:2);Y = 10 * index(0) + 2 * index(1) - 2;
Y[1:2,2:2] = L(Y[-1:1:1,1:2]);scalar t = any(L(Y[2:1:-1,-1:0]));print Y[-1:2,-1:2];print t;
> -2 8 18 28;0 10 20 30;2 12 22 32;4 14 12 22;1;

stencil M lower (0,0) upper (1,1) = @(1,0) + @(0,0) - 2 * @(1,0);brick C (-2:0,0:2);C = 3 * index(0) + 2 * index(1) - 5;
scalar y = all(M(C[-2:-1,1:2]));print C;print C[-2:0,0:2];print y;
> -5 -2 1;-3 0 3;-1 2 5;-5 -2 1;-3 0 3;-1 2 5;1;

brick Z (1:3,1:3);brick U (0:1,0:1);layout V (0:3,-1:0) blocks (1,2);stencil Y lower (0,0) upper (0,1) = 1;
U[0:1,1:0:-2] = (3) < (7);Z[1:2,3:3] += Y(Z[2:3,2:1:-1]);field J on V faces antireflect, constant 5, periodic, extrapolate;
J = (3 * index(0) + 1 * index(1)) * index(1) - 4;repeat 3;end;print Z[1:3,1:3];print U[0:1,0:1];print J[0:3,-1:0];
> 0 0 0;0 0 0;1 1 0;0 0;1 1;-4 -4 -4 -4;-3 0 3 6;

stencil E lower (1,0) upper (1,0) = (-(4611686018427387904)) | (5 & @(-1,0));brick S (-1:2,1:3);
S = 3 * index(0) + 1 * index(1) - 1;S[0:0:3,1:3] -= E(S[0:2,1:3]);S[0:1:1,2:3:3] -= E(S[-1:2,1:1]);print S[-1:2,1:3];
> -1 4611686018427387906 5 8;0 9223372036854775805 4611686018427387910 9;1 4611686018427387904 7 10;

layout J (-1:2) blocks (1) internal (2);field V on J faces antireflect, reflect;V = (1 * index(0)) * index(0) - 4;
print V[-1:2];
> -4 -3 0 5;

brick s (1:3,0:2);stencil H lower (1,1) upper (0,1) = -((@(0,-1)) != (@(0,0))) % 1;
s[1:1:3,1:1:-2] = H(s[2:3:1,0:2]) + index(0);layout V (-1:1,-2:-1) cuts ((0,1),(-1)) internal (0,0) external (1,2);
s -= index(0);s[1:1:2,1:1:1] = H(s[3:2:-1,0:2]);s *= index(1);scalar y = min(H(s[1:4:2,0:2]));print s;print s[1:3,0:2];
print y;
> 0 0 0;0 -1 -2;0 -2 -4;0 0 0;0 -1 -2;0 -2 -4;0;

brick F (-1:1,-1:0);stencil U lower (0,0) upper (0,1) = @(0,1) + @(0,0) - 2 * @(0,0);brick T (1:3,-1:1);
T = 1 * index(0) + 1 * index(1) - 5;T[2:3:1,0:0:-1] += max(U(T[2:3,-1:0:1]), 3);repeat 2;scalar z = count(T[1:3,-1:0]);
F[-1:1,0:0:3] = U(T[1:3,1:0:-1]);scalar x = bitand(U(T[3:1:-1,-1:1:2]) + index(0));end;print F[-1:1,-1:0];print T[1:3,-1:1];
print z;
> 0 0 0;-1 2 2;-5 -4 -3;-4 0 1;-3 -2 -1;5;

brick T (0:3,-1:2);brick E (1:3,1:2,-1:2);E = 10 * index(0) + 3 * index(1) + 4 * index(2) - 3;brick J (-2:0);
stencil B lower (1,0) upper (1,0) = @(0,0) + @(0,0) - 2 * @(0,0);repeat 3;end;repeat 2;T[0:1:3,-1:0] = 2 * B(T[0:2:1,-1:2:2]);
end;print T[0:3,-1:2];print E[1:3,1:2,-1:2];print J[-2:0];
> 0 0 0 0;0 0 0 0;0 0 0 0;0 0 0 0;-3 7 17;0 10 20;1 11 21;4 14 24;5 15 25;8 18 28;9 19 29;12 22 32;0 0 0;

layout C (-2:0,-1:0,-2:0) blocks (2,1,2) internal (0,0,0);array  H on C;H = 10 * index(0) + 1 * index(1) + 1 * index(2) - 3;
layout K (1:3,0:1,-1:0) blocks (2,2,2) internal (1,1,0);
stencil Y lower (0,0,0) upper (1,0,0) = @(1,0,0) + @(1,0,0) - 2 * @(0,0,0);scalar t = count(H[-2:-2:1,0,-1:0]);
scalar s = all(Y(H[0:-3:-2,-1:0,-2:-2:1]));print H[-2:0,-1:0,-2:0];
> -3 7 17;-2 8 18;-2 8 18;-1 9 19;-1 9 19;0 10 20;

brick S (1:3,-2:-1);S = 2 * index(0) + 10 * index(1) - 0;
stencil L lower (1,0) upper (0,1) = -(((5) == (@(-1,1))) <= (@(0,1)));S[2:3,-2:-2:1] = L(S[1:3,-2:-1]);print S;repeat 2;end;
S[2:1:-1,-2:-2:-1] += 2 * L(S);S[2:3,-2:-2] -= L(S[3:1:-1,-2:-1:1]);print S[1:3,-2:-1];
> 0 -1 -1;10 12 14;-2 -2 0;10 12 14;

layout U (1:5) blocks (3) external (2);brick B (2:5);B = 2 * index(0) - 5;field K on U faces constant 10, periodic;
K = 2 * index(0) - 5;repeat 3;
K[2:2] = ((B[4:4:2] <= B[4:3:-2]) % ((index(0)) < (450421395524))) - (((10) + (652205169198)) % (-(B[5:5:-1])));
B[2] = max(where(0, 1, B[3]), where(B[4], B[5], 7));block;end;print B[2:5];print K[-1:7];
> 1 -3 -1 1;10 10 -5 0 -1 1 3 -5 0;

layout Y (0:2,-2:-1) blocks (3,1) internal (0,1) external (1,0);stencil D lower (3,0) upper (0,0) = @(0,0) < @(-1,0);
brick S (1:4,0:2);S = 4 * index(0) + 4 * index(1) - 0;S[3:3:2,1:2] -= where(D(S[1:4,1:2]) > 0, S[3:3:2,1:2], 1);
brick\tM (0:1,1:3) # c;M = 4 * index(0) + 3 * index(1) - 0;scalar s = min(max(D(S[1:4,2:2:-1]), 3));print S[1:4,0:2];print s;
> 0 4 8 12;4 8 11 16;8 12 15 20;3;

stencil Z lower (1,0) upper (0,1) = @(0,0);brick  L (0:3,1:4)\r;L = (10 * index(0) + 1 * index(1)) * index(1) - 2;
L[0:0,2:3:3] += where(Z(L[2:3:1,3:4]) > 0, L[0:0,2:3:3], 1);L[0:0:1,1:3:3] -= Z(L[1:2,2:1:-1]);
L[2:1:-2,2:3] += Z(L[1:4:2,1:3:1]);print L;
> -21 -2 -2 -2;-2 9 17 29;2 22 71 62;7 37 67 97;

stencil H lower (0,0) upper (0,1) = where(100, @(0,0), @(0,1));brick W (0:3,1:3);W = 10 * index(0) + 10 * index(1) - 5;
brick D (-1:1,-1:0);D = 2 * index(0) + 4 * index(1) - 0;scalar z = sum(H(W[3:4:2,1:2]));print W[0:3,1:3];print D[-1:1,-1:0];
print z;
> -5 5 15 25;5 15 25 35;15 25 35 45;0 2 4;4 6 8;25;

stencil toolon lower (1,1) upper (1,1) = where(280127874845, 2, 2);stencil t lower (0,0) upper (0,1) = (@(0,1) + @(0,1)) / 2;
layout s (0:2,1:4) blocks (2,3) internal (2,1);brick C (-2:0,1:3);C = 1 * index(0) + 2 * index(1) - 3;C[0,2] = C[0,1];print C;
repeat 2;C[-1:-1,2:3] = t(C[0:0,1:3]);end;
> -3 -2 -1;-1 0 -1;1 2 3;

layout F (-1:0) blocks (1) internal (1) external (1);layout S (1:4,0:2) blocks (1,2) external (2,0);
stencil K lower (1,0) upper (1,1) = 1;field V on S faces constant -1, constant 100, constant 0, periodic;
V = (2 * index(0) + 4 * index(1)) * index(1) - 2;V[2:3,0:1] -= max(K(V[5:-1:-2,2:0:-1]), 3);print V[-1:6,0:2];
> -1 -1 -2 -5 -5 -2 100 100;-1 -1 2 1 3 8 100 100;-1 -1 14 18 22 26 100 100;

stencil U lower (0,0) upper (0,1) = (@(0,1) + @(0,1)) / 2;brick W (-2:0,-1:1);W = 3 * index(0) + 10 * index(1) - 3;
W[0:-2:-2,1:1:-1] = U(W[-1:-2:-1,0:1:1]);W[-1:0,-1:-1:1] = where(U(W[-2:-1:1,0:1]) > 0, W[-1:0,-1:-1:1], 1);repeat 3;
W[-1:-2:-2,0:1] = where(U(W[0:0:1,-1:1]) > 0, W[-1:-2:-2,0:1], 1);end;W[0:0,-1:-1:-1] = U(W[-2:-2:-1,-1:0]);repeat 2;
W[-2:0,0:0:2] = U(W[-2:0:1,0:1]);end;print W[-2:0,-1:1];
> -3 0 7;17 20 20;17 20 20;

brick I (2:6);layout G (1:4) cuts (()) internal (2) external (0);field B on G faces antireflect, antireflect;
B = (3 * index(0)) * index(0) - 2;brick V (-3:-3);V = 10 * index(0) - 4;repeat 2;print I;repeat 2;print V[-3:-3];
B[1:2] = (911872451820) | (B[4:3:-1]);end;end;print B[1:4];print V[-3:-3];
> 0 0 0 0 0;-4;-4;0 0 0 0 0;-4;-4;911872451837 911872451822 10 25;-4;

brick s (1:2,-1:0);s\t= (1 * index(0) + 1 * index(1)) * index(1) - 1;brick H (-1:1);H = 10 * index(0) - 5;block;H = 3;repeat 2;
s[1,0] -= H[0];end;print s[1:2,-1:0];print H[-1:1];
> -1 -1;-6 1;3 3 3;

layout F (0:1,-1:1,0:2) cuts ((1),(0,1),(1,2)) internal (2,0,2) external (2,2,1);
stencil H lower (1,0) upper (0,1) = (@(-1,1) + @(-1,1)) / 2;brick V (-2:0,-1:1);V = 10 * index(0) + 2 * index(1) - 1;
V[-1:-1:-2,1:1]  += H(V[-1:-2:-1,0:-1:-1]) # c;scalar s = count(max(H(V[0:-2:-2,0:1:1]), 3));scalar x = V[-2,-1];
scalar z = sum((0) - (V[-2:-1,0:0]));V[-1:0:2,1:0:-1] = H(V[-2:0:2,1:-1:-1]);print V[-2:0,-1:1];print x;
> -1 9 19;1 -1 21;3 1 23;-1;

stencil I lower (0,1) upper (1,0) = @(0,-1) + @(0,-1) - 2 * @(0,0);brick D (0:2,-1:2);
D = (2 * index(0) + 3 * index(1)) * index(1) - 0;scalar s = all(I(D[0:1:1,0:2]));D[2:2:2,0:2:3] -= I(D[0:1:1,1:2]);block;
print D;print D[0:2,-1:2];print s;
> 0 0 0;3 5 37;12 16 20;27 33 39;0 0 0;3 5 37;12 16 20;27 33 39;1;

layout G (0:2,-2:0,1:3) blocks (1,2,2);field S on G faces reflect, extrapolate, periodic, constant -0, reflect, reflect;
S = 1 * index(0) + 3 * index(1) + 1 * index(2) - 3;brick B (-1:1,1:3);B = 2 * index(0) + 4 * index(1) - 3;repeat 2;
B = S[2,-2:0,1:3];B[1,2] -= max(S[2,-1,2], B[0,3]);end;print S[0:2,-2:0,1:3];print B[-1:1,1:3];
> -3 -2 -1;0 1 2;3 4 5;-2 -1 0;1 2 3;4 5 6;-1 0 1;2 3 4;5 6 7;-1 2 5;0 3 2;1 4 7;

brick S (0:3);brick F (-2:0);F = 1 * index(0) - 3;print F[-2:0];
> -3 -2 -1;

layout G (0:2,0:3) cuts ((),()) internal (0,2) external (1,0);stencil toolon lower (0) upper (1) = @(1);array H on G;
H = 3 * index(0) + 3 * index(1) - 2;brick Z (1:4);Z\t= 3 * index(0) - 5;repeat 2;Z += Z[1:4];Z[3:4] = toolon(Z[4:2:-1]);
H[0,3] = min(where(1, 100, (3) - (H[0,1])), (H[3,0]) + (Z[1]) > -(Z[4]));end;print H[-1:3,0:3];print Z[1:4];
> 0 -2 1 4 0;0 1 4 7 0;0 4 7 10 0;0 0 10 13 0;-20 -8 4 -8;

brick Y (-1:1,0:2);Y = 3 * index(0) + 10 * index(1) - 4;layout S (-2:0) blocks (2) internal (1);
stencil G lower (0,1) upper (1,0) = @(0,0) + @(0,-1) - 2 * @(1,-1);
Y[-1:-1,1:1] = where(G(Y[0:-1:-1,1:2:1]) > 0, Y[-1:-1,1:1], 1);scalar t = bitand(G(Y[1:0:-1,2:-1:-2]));print Y[-1:1,0:2];
print t;
> -4 -1 2;6 9 12;16 19 22;-14;

brick Y (-2:1,-2:0);Y = 1 * index(0) + 3 * index(1) - 4;stencil T lower (0,1) upper (1,1) = (@(1,-1) + @(1,-1)) / 2;
brick X (-2:0);X = 10 * index(0) - 1;Y[-2:0:3,0:0] += T(Y[1:0:-1,0:-2:-1]);scalar y = sum(where(5, X[-1:0], X[0:-1:-1]));
print Y[-2:1,-2:0];print X[-2:0];print y;
> -4 -3 -2 -1;-1 0 1 2;6 3 4 5;-1 9 19;28;

brick S (1:3,-2:1,1:2);S = (1 * index(0) + 2 * index(1) + 10 * index(2)) * index(2) - 5;
stencil T lower (0,1,1) upper (0,1,0) = where(@(0,1,-1) < @(0,-1,-1), @(0,1,-1), abs(@(0,0,0)));
layout X (-1:2,1:3) cuts ((),(2));stencil H lower (0,1) upper (0,0) = where(@(0,-1) < @(0,0), @(0,0), abs(@(0,-1)));repeat 2;
scalar x = bitand(0);end;S[3:3,-2:-1,2:1:-2] = max(T(S[2:2:-1,-2:1,2:1:-1]), 3);print S[1:3,-2:1,1:2];print x;
> -5 -5 -5;-5 -5 -5;-5 -5 -5;-5 -5 -5;5 6 5;7 8 5;9 10 11;11 12 13;0;

brick Z (2:5);Z = 10 * index(0) - 3;layout W (1:4) blocks (1) external (1);brick S (-1:-1);S = (3 * index(0)) * index(0) - 4;
S[-1:-1] *= (2) % (Z[2:4:3]);repeat 2;Z[3:4:1] = 268492260542;repeat 2;S[-1] += 1;repeat 3;end;end;end;print Z[2:5];
print S[-1:-1];
> -3 268492260542 268492260542 27;-4;

layout T (-2:0,-2:-1) blocks (1,1);field t on T faces reflect, constant 7, periodic, constant -10;
t  = 3 * index(0) + 4 * index(1) - 1;array L on T;L = (10 * index(0) + 10 * index(1)) * index(1) - 0;repeat 3;
scalar y = any(abs((L[0:-2:-1,-2:-1:1]) >= (1 + L)));end;print t[-2:0,-2:-1];print L[-2:0,-2:-1];print y;
> -1 2 5;3 6 9;0 0 0;10 20 30;1;

stencil E lower (0,0) upper (0,0) = @(0,0) + @(0,0) - 2 * @(0,0);brick B (1:3,-2:-1);B[3:1:-1,-1:-1] += E(B[3:1:-1,-1:-1:2]);
brick t (0:3);t = (10 * index(0)) * index(0) - 3;brick toolon (0:2,-2:-1);toolon = 2 * index(0) + 1 * index(1) - 2;repeat 3;
block;end;print toolon[0:2,-2:-1];
> -2 0 2;-1 1 3;

layout M (0:3) blocks (2) external (2);brick B (0:3,-2:1);B = 3 * index(0) + 1 * index(1) - 5;
stencil F lower (0,1) upper (1,0) = @(1,0) + @(0,-1) - 2 * @(0,0);brick U (-1:1,-2:0);
U = (10 * index(0) + 10 * index(1)) * index(1) - 1;scalar z = abs(1);scalar s = min(F(B[3:1:-1,1:-1:-1]));print B[0:3,-2:1];
> -5 -2 1 4;-4 -1 2 5;-3 0 3 6;-2 1 4 7;

layout L (-1:1) blocks (3);field E on L faces antireflect, constant 9223372036854775807;E = 4 * index(0) - 1;print E[-1:1];
> -1 3 7;

brick toolong (0:1,-1:0);stencil D lower (1,0) upper (1,0) = (0) - (4611686018427387904);brick V (-1:2,0:2);
V = 3 * index(0) + 1 * index(1) - 0;V[-1:0,1:2:1] -= D(V[2:-1:-1,0:1]);print toolong[0:1,-1:0];print V[-1:2,0:2];
> 0 0;0 0;0 3 6 9;4611686018427387905 4611686018427387908 7 10;4611686018427387906 4611686018427387909 8 11;

stencil W lower (1,0) upper (0,1) = max(@(-1,1), @(-1,0)) - min(@(-1,0), @(0,1));brick E (0:2,-1:2);
E = (1 * index(0) + 10 * index(1)) * index(1) - 1;E[0:0:-2,0:-1:-2] = 2 * W(E[2:-1:-2,1:2]);
E[1:1,1:-1:-2] -= W(E[2:1:-1,0:2]);E[0:0,0:2] = W(E[1:2,2:-1:-1]);print E[0:1:1,2:1:-2];print E[0:2,-1:2];
> 11 92;-1 -53 -1;49 10 11;1 9 43;11 92 95;

stencil E lower (0) upper (0) = 10;brick Z (-2:1);Z = (3 * index(0)) * index(0) - 0;
layout T (1:3,-2:1) blocks (1,3) external (1,1);Z[-2:0]\t= 2 * E(Z[-2:0]) # c;Z[0:-1:-1] += E(Z[-2:1:2]);print Z[-2:1];
> 20 30 30 27;

stencil A lower (1,1,1) upper (0,1,1) = (1) & (9223372036854775807);brick H (1:2,-2:1,1:3);
H = (2 * index(0) + 4 * index(1) + 2 * index(2)) * index(0) - 1;
H[1:1:1,0:1:3,1:3:3] -= where(A(H[2:1:-1,-1:1:1,3:1:-1]) > 0, H[1:1:1,0:1:3,1:3:3], 1);print H;print H[1:2,-2:1,1:3];
> -1 1;-1 5;0 9;-1 13;-1 3;-1 7;-1 11;-1 15;-1 5;-1 9;-1 13;-1 17;-1 1;-1 5;0 9;-1 13;-1 3;-1 7;-1 11;-1 15;-1 5;-1 9;-1 13;
> -1 17;

layout L (-2:1) cuts ((1)) internal (2);array E on L;E = (1 * index(0)) * index(0) - 4;print E[-2:1];
> -4 -3 0 5;

layout D (1:4) blocks (1) internal (0);brick t (0:4);t = 2 * index(0) - 3;field T on D faces reflect, periodic;
T = (2 * index(0)) * index(0) - 5;scalar s = bitor(t);print t[0:4];
> -3 -1 1 3 5;

brick W (1:3);layout D (-1:1,1:2) cuts ((0),(2)) internal (2,0) external (0,0);
stencil C lower (1,1) upper (1,1) = where(@(1,0) < @(1,0), @(-1,0), abs(@(0,1)));brick F (0:2,0:2);
F = 10 * index(0) + 3 * index(1) - 1;brick X (1:4,-1:1);X = 2 * index(0) + 10 * index(1) - 0;scalar y = max(-(10));
brick B (-1:2);F[2:2:2,1:1] -= max(C(X[3:1:-1,-1:1]), 3);repeat 2;end;print F[0:2,0:2];print B[-1:2];
> -1 9 19;2 12 0;5 15 25;0 0 0 0;

brick M (-3:1);M = 10 * index(0) - 3;layout J (2:5) blocks (1) external (0);print M[-3:1];
> -3 7 17 27 37;

layout Z (0:2,0:1,0:1) blocks (2,1,1);array A on Z;A = 10 * index(0) + 2 * index(1) + 2 * index(2) - 0;
field V on Z faces antireflect, reflect, reflect, periodic, periodic, constant 9223372036854775806;
V = (2 * index(0) + 1 * index(1) + 2 * index(2)) * index(1) - 5;repeat 3;A *= V;end;print A[0:2,0:1,0:1];print V[0:2,0:1,0:1];
> 0 -1250 -2500;-128 -96 0;-250 -1500 -2750;-32 0 192;-5 -5 -5;-4 -2 0;-5 -5 -5;-2 0 2;

stencil I lower (2) upper (1) = @(0) + @(1);layout G (-1:-1) blocks (1) internal (2);brick X (1:4);X = 2 * index(0) - 5;
print X[1:2];print X[3];scalar s = min(-(I(X)));print X[1:4];print s;
> -5 -3;-1;-5 -3 -1 1;0;

brick G (0:4);G = (4 * index(0)) * index(0) - 3;brick X (0:1);X = 1 * index(0) - 0;scalar y = bitand(G[0:1]);repeat 2;
repeat 3;X[1:1:1] += 4611686018427387904;scalar s = sum(((G[2:4:2]) / (G[3:2:-1] != y)) & ((index(0)) / (abs(G[1:4:2]))));
repeat 2;X[1] = y;end;end;end;print G[0:4];print s;
> -3 1 13 33 61;0;

stencil G lower (0,1) upper (1,0) = 3 <= 0;stencil C lower (1,1) upper (1,1) = @(1,-1) + @(-1,1) - 2 * @(-1,0);
brick S (0:1,0:2);S = 10 * index(0) + 4 * index(1) - 2;S[0:0:2,2:1:-1] = G(S) + index(0);block;repeat 3;block\r;end;repeat 3;
end;print S[0:1,0:2];
> -2 8;0 12;0 16;

stencil  S lower (0) upper (1) = (1) - (0);brick M (0:2,-2:0);M = 4 * index(0) + 2 * index(1) - 3;brick H (1:4);
H = (3 * index(0)) * index(0) - 5;M = (M[0:2,-2:0]) + (7);repeat 3;M -= index(1);
M[0:2:3,0] = -(min((S(M[1,-2:-1:1])) % (4294967296), (1) - (10)));scalar t = count(H[1:2]);end;print M[0:2,-2:0];print t;
> 4 8 12;3 7 11;9 6 10;2;

stencil V lower (1,0) upper (1,1) = (-(4294967296)) + (7 + @(1,0)) == (-(@(1,1))) + (@(-1,0));
layout J (0:1,-2:1) cuts ((1),()) external (2,0);field X on J faces antireflect, antireflect, constant -10, extrapolate;
X = (3 * index(0) + 10 * index(1)) * index(1) - 5;X[0:1,-1:1:3] -= where(V(X[0:3,-1:-2:-1]) > 0, X[0:1,-1:1:3], 1);
X[1:0:-1,-2:-2:1] -= where(V(X[-2:1,-1:2:2]) > 0, X[1:0:-1,-2:-2:1], 1);print X[-2:3,-2:1];
> 6 6 -6 -6 6 6;-7 -4 4 7 -7 -4;-41 -35 35 41 -41 -35;-94 -85 85 94 -94 -85;

stencil I lower (0,1) upper (0,1) = @(0,1) + @(0,1) - 2 * @(0,0);brick B (-2:0,-2:0);B = 2 * index(0) + 10 * index(1) - 2;
layout s (-2:1) cuts (()) internal (2) external (0);print B[-2,-2:-1:1];B[-2:0,0:0:-2] += where(I(B) > 0, B[-2:0,0:0:-2], 1);
B[0:0:2,-2:-1:3]  = 2 * I(B[-1:-1,-2:0:1]) # c;B[0,-2:-1] *= (1) + (B[-1:0:1,0]);print B[-2:0,-2:0];
> -2 8;-2 0 4920;8 10 540;36 40 44;

brick W (-1:1,-2:0);W = 1 * index(0) + 1 * index(1) - 3;layout H (-1:2,1:3,-1:1) blocks (1,3,2) external (2,2,2);
brick A (1:2);A = 2 * index(0) - 2;scalar z = sum(abs(min(0, A)));repeat 3;block;scalar s = any(A[1:1]);end;
print W[-1:1,-2:0];print A[1:2];print z;print s;
> -3 -2 -1;-2 -1 0;-1 0 1;-2 0;2;1;

brick K (-1:1,-1:1);K = 1 * index(0) + 4 * index(1) - 4;brick D (1:2);D = (2 * index(0)) * index(0) - 0;repeat 3;
scalar y = all(D[1:2] - K[1:0:-1,0] | index(0));end;print K[-1:1,-1:1];print D[1:2];print y;
> -4 -3 -2;0 1 2;4 5 6;0 2;1;

brick W (-2:1,-3:0,0:1);W = 3 * index(0) + 10 * index(1) + 2 * index(2) - 1;brick S (2:5);S = (10 * index(0)) * index(0) - 1;
scalar  x = bitor(W)\r;repeat 2;S[4:4] += 2;end;print W[-2:1,-3:0,0:1];
> -1 2 5 8;9 12 15 18;19 22 25 28;29 32 35 38;1 4 7 10;11 14 17 20;21 24 27 30;31 34 37 40;";

#[test]
fn drawn_scripts_are_done(rt: HostRuntime) {
    assert!(rt; first_otherwise(rt.alloc(), DONE, Status::Done) == Ok(None));
}
